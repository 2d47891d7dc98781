// A line read as a slice: an even count of hexadecimal capitals, at most 512.
ghost use Rattle.std.specs.Prelude.{◌≡◌, true, ◌≤◌, length, IfSome};
ghost use Rattle.std.proofs.lemmas.List.Edits.{sets};
ghost use Rattle.lines.specs.Lines.{value, is_call, slice_of, line_of, held_after};

// The value of a hexadecimal capital; 16 for any other character. An Option is no plainer: `put_slice` would take apart
// again what `is_call` has tested.
#[tactic(auto, unfolding(crate::specs::Lines::value))]
fn value_of(b: u8) -> u8
    ensures { result ≡ value b }
{
    match b {
        b'0'..=b'9' => b - b'0',
        b'A'..=b'F' => b - b'A' + 10,
        _ => 16,
    }
}

// The most digits that a call has: two for each byte of the longest slice.
const MOST_DIGITS: usize = 512;

// Whether the line is a call.
fn is_call(line: &[u8]) -> bool
    ensures { result ≡ is_call line.now }
{
    line.len() <= MOST_DIGITS && line.len() % 2 == 0 && line.iter().all(|b| value_of(*b) < 16)
}

// Writes the bytes that the line spells to the front of `slice`, and returns how many.
fn put_slice(line: &[u8], slice: &mut [u8; 256]) -> usize
    requires { is_call line.now ≡ true }
    ensures value { (result ≡ length (slice_of line.now)) × (result ≤ 256) }
    ensures slice_after { slice.new ≡ sets slice.old 0 (slice_of line.now) }
{
    let n = line.len() / 2;
    // By its index: of what is written by `iter_mut`, no byte is known.
    for i in 0..n {
        slice[i] = value_of(line[2 * i]) * 16 + value_of(line[2 * i + 1]);
    }
    n
}

// Reads a line: how many bytes the slice has; None where it is no call, and then `slice` is untouched.
#[tactic(auto, unfolding(crate::specs::Lines::line_of, crate::specs::Lines::held_after))]
pub fn read_line(line: &[u8], slice: &mut [u8; 256]) -> Option<usize>
    ensures value { (result ≡ line_of line.now) × IfSome result (λ n. n ≤ 256) }
    ensures slice_after { slice.new ≡ held_after slice.old line.now }
{
    if is_call(line) {
        return Some(put_slice(line, slice));
    }
    None
}
