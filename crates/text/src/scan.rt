// The index of the first byte of a given value in a slice, and the end of a field. The fields of a text are parted
// by one SP each.
ghost use Rattle.std.specs.Prelude.{◌≡◌, ◌≤◌, ◌+◌, length, drop};
ghost use Rattle.text.specs.Scan.{before, empty_or};

use crate::field::At;

// The index of the first `byte` of s; s's length where there is none.
fn first(s: &[u8], byte: u8) -> usize
    ensures value { result ≡ before byte s.now }
    ensures upper_bound { result ≤ length s.now }
{
    s.iter().position(|b| *b == byte).unwrap_or(s.len())
}

// The index of the first `byte` of the text at `from` or after it; the text's length where there is none.
pub fn find(from: At<'_>, byte: u8) -> usize
    ensures { (result ≡ from.entry.index + before byte (drop from.entry.index from.entry.text.now)) × (result ≤ length from.entry.text.now) }
{
    from.index + first(&from.text[from.index..], byte)
}

// Whether a field ends there: at SP, or at the end of the text.
pub fn is_end(at: At<'_>) -> bool
    ensures { result ≡ empty_or 32 (drop at.entry.index at.entry.text.now) }
{
    at.index == at.text.len() || at.text[at.index] == b' '
}
