// Bytes written into a lent area. Each function takes where to write and the sum of the bytes written before, and
// returns both for the next.
ghost use Rattle.std.specs.Prelude.{[], ◌∷◌, ◌<◌, ◌≤◌, ◌+◌, length};
ghost use Rattle.text.specs.Put.{Put};

// Where the next byte is written, and the exclusive or of the bytes written so far. The area stands beside it: of a struct
// that held both, every writer would have to promise that it still holds the caller's area.
#[derive(Clone, Copy)]
pub struct Cursor {
    pub at: usize,
    pub sum: u8,
}

// Writes one byte.
pub fn put_byte(area: &mut [u8], to: Cursor, b: u8) -> Cursor
    requires { to.at < length area.old }
    ensures { Put area.old to (b ∷ []) result area.new }
{
    let at = to.at;
    area[at] = b;
    Cursor {
        at: at + 1,
        sum: to.sum ^ b,
    }
}

// Writes all bytes of s.
pub fn put_bytes(area: &mut [u8], to: Cursor, s: &[u8]) -> Cursor
    requires { to.at + length s.now ≤ length area.old }
    ensures { Put area.old to s.now result area.new }
{
    let mut end = to;
    for b in s {
        end = put_byte(area, end, *b);
    }
    end
}
