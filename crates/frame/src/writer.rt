// The frame writer: a frame is opened in a lent area, its body is written there by the caller, and it is
// closed. The LRC is the sum that the cursor keeps while the frame is written. Bytes past the length that closing
// returns are untouched.
ghost use Rattle.std.specs.Prelude.{◌≡◌, List, [], ◌∷◌, ◌++◌, ℕ, ◌≤◌, ◌+◌, length};
ghost use Rattle.text.specs.Put.{PutAt};
ghost use Rattle.text.specs.Whole.{shortest};
ghost use Rattle.frame.specs.Checksum.{lrc_of};
ghost use Rattle.frame.specs.Frame.{opening, closing};

use crate::{ETX, STX};
use text::put::{Cursor, put_byte};
use text::whole::put_shortest;

// Writes STX, the station and SP, and returns where the body starts, with the sum of what follows STX.
pub fn open_frame(area: &mut [u8], station: u8) -> Cursor
    requires { length (opening station) ≤ length area.old }
    ensures { PutAt area.old 0 (opening station) result.at area.new × (result.sum ≡ lrc_of (shortest station ++ (32 ∷ []))) }
{
    area[0] = STX;
    let space = put_shortest(area, Cursor { at: 1, sum: 0 }, station as u16);
    put_byte(area, space, b' ')
}

// Writes ETX and the LRC after a body that ends at `end`, and returns the length of the frame.
pub fn close_frame(area: &mut [u8], end: Cursor) -> usize
    requires { end.at + 2 ≤ length area.old }
    ensures { (t : List ℕ) → end.sum ≡ lrc_of t → PutAt area.old end.at (closing t) result area.new }
{
    let last = put_byte(area, end, ETX);
    put_byte(area, last, last.sum).at
}
