// A line taken in parts, as it comes in blocks.
ghost use Rattle.std.specs.Prelude.{◌≡◌, ◌++◌, ◌≤◌, length, take};

use text::put::{Cursor, put_bytes};

// The first n bytes of s.
pub fn front(s: &[u8], n: usize) -> &[u8]
    requires { n ≤ length s.now }
    ensures { result.now ≡ take n s.now }
{
    &s[..n]
}

// Adds the bytes of s to the n bytes held. No more than 513 are kept: a line over 512 digits is no call,
// whatever follows.
pub fn take_bytes(held: &mut [u8], n: usize, s: &[u8]) -> usize
    requires { (length held.old ≡ 513) × (n ≤ 513) }
    ensures { (take result held.new ≡ take 513 (take n held.old ++ s.now)) × (result ≤ 513) }
{
    let room = 513 - n;
    if room < s.len() {
        return put_bytes(held, Cursor { at: n, sum: 0 }, &s[..room]).at;
    }
    put_bytes(held, Cursor { at: n, sum: 0 }, s).at
}
