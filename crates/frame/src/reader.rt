// The frame reader: checks 2 to 7 of a slice, in their order.
ghost use Rattle.std.specs.Prelude.{◌≡◌, false, List, ℕ, ◌≤◌, ◌<◌, length, ltb, unwrap_or, IfSome};
ghost use Rattle.refusals.specs.Refusal.{refused_position};
ghost use Rattle.frame.specs.Checksum.{lrc_of};
ghost use Rattle.frame.specs.Frame.{stray, Station, read_inner, read_frame, frame_position, reading_of};

use crate::{ETX, STX};
use refusals::refusal::{Refusal, Refused};

// An accepted frame: its station, and its body as a part of the slice.
#[derive(Clone, Copy)]
pub struct Frame<'a> {
    pub station: u8,
    pub body: &'a [u8],
}

// What `lrc_and_stray` finds in a text.
#[derive(Clone, Copy)]
pub struct Scanned {
    pub sum: u8,
    pub stray: bool,
}

// The exclusive or of all bytes of s, and whether one of them is outside 20h..7Eh.
// One pass over s, to its end, with no early exit.
#[tactic(auto, using(crate::proofs::Pass::passes), unfolding(crate::specs::Checksum::lrc_of))]
fn lrc_and_stray(s: &[u8]) -> Scanned
    ensures sum_value { result.sum ≡ lrc_of s.now }
    ensures stray_value { result.stray ≡ ltb (stray s.now) (length s.now) }
{
    let mut sum: u8 = 0;
    let mut stray = false;
    for b in s {
        sum ^= *b;
        stray = stray | (*b < 32) | (126 < *b);
    }
    Scanned { sum, stray }
}

// The index of the first byte of s outside 20h..7Eh; s's length where there is none.
fn find_stray(s: &[u8]) -> usize
    ensures value { result ≡ stray s.now }
    ensures upper_bound { result ≤ length s.now }
{
    s.iter()
        .position(|b| *b < 32 || 126 < *b)
        .unwrap_or(s.len())
}

// The station that stands before the first SP, of one or two digits.
#[tactic(auto, using(crate::proofs::Station::stations))]
fn read_station(inner: &[u8]) -> Option<u8>
    requires { 3 ≤ length inner.now }
    ensures value { Station inner.now (unwrap_or result 0) }
    ensures positive { IfSome result (λ v. 0 < v) }
{
    let first = inner[0];
    if first < b'1' || b'9' < first {
        return None;
    }
    let second = inner[1];
    if second == b' ' {
        return Some(first - b'0');
    }
    if !second.is_ascii_digit() || inner[2] != b' ' {
        return None;
    }
    Some((first - b'0') * 10 + (second - b'0'))
}

// Check 7, of what stands between STX and ETX, where no byte is stray. The position is the same in any slice.
#[tactic(auto, using(crate::proofs::Station::none_is), unfolding(crate::specs::Frame::frame_position))]
fn read_inner(inner: &[u8]) -> Result<Frame<'_>, Refused>
    requires { (3 ≤ length inner.now) × (ltb (stray inner.now) (length inner.now) ≡ false) }
    ensures read { reading_of result ≡ read_inner inner.now }
    ensures position_value { (s : List ℕ) → refused_position result ≡ frame_position s (read_inner inner.now).number }
{
    let Some(station) = read_station(inner) else {
        return Err(Refused::at(Refusal::Station, 1));
    };
    let body = if station < 10 {
        &inner[2..]
    } else {
        &inner[3..]
    };
    Ok(Frame { station, body })
}

// Reads a frame: its station, and its body as a part of the slice. Refused: the first check that fails. The position in the
// slice is that of the first stray byte for 6, 1 for 7, and 0 for every other number.
#[tactic(auto, using(crate::proofs::Checks::checks))]
pub fn read_frame(slice: &[u8]) -> Result<Frame<'_>, Refused>
    ensures read { reading_of result ≡ read_frame slice.now }
    ensures position_after { refused_position result ≡ frame_position slice.now (read_frame slice.now).number }
{
    if slice.len() < 6 || 255 < slice.len() {
        return Err(Refusal::Length.into());
    }
    if slice[0] != STX {
        return Err(Refusal::Start.into());
    }
    let etx = slice.len() - 2;
    if slice[etx] != ETX {
        return Err(Refusal::End.into());
    }
    let scanned = lrc_and_stray(&slice[1..etx]);
    if slice[etx + 1] != scanned.sum ^ ETX {
        return Err(Refusal::Lrc.into());
    }
    if scanned.stray {
        let position = find_stray(&slice[1..etx]) + 1;
        return Err(Refused::at(Refusal::Stray, position));
    }
    read_inner(&slice[1..etx])
}
