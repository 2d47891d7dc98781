// The typed steps of the examples, each by a letter. A text's first character is the lowest byte of its number.
use steps::step::Step;

const MOVE: u64 = 0x45564f4d;

const A: u64 = 0x41;

const B: u64 = 0x42;
// Of 8 characters: POINT-99.
const POINT: u64 = 0x39392d544e494f50;

// Five texts of 8 characters: COMMANDS FIRST-11 SECOND-2 THIRD--3 FOURTH-4.
fn longest() -> Step {
    Step::from([
        0x53444e414d4d4f43,
        0x31312d5453524946,
        0x322d444e4f434553,
        0x332d2d4452494854,
        0x342d485452554f46,
    ])
}

pub fn step_of(letter: u8) -> Step {
    match letter {
        // One datum to four; d has the characters 21h and 7Eh.
        b'b' => Step::from([A, POINT, 0, 0, 0]),
        b'c' => Step::from([POINT, A, B, 0, 0]),
        b'd' => Step::from([0x7e21, A, POINT, B, 0]),
        b'e' => longest(),
        // A hole in the command: before its second, its first and its eighth character.
        b'f' => Step::from([0x56004d, 0, 0, 0, 0]),
        b'g' => Step::from([0x4d00, 0, 0, 0, 0]),
        b'h' => Step::from([0x4400000000434241, 0, 0, 0, 0]),
        // The bytes 20h, 7Fh and, as the eighth, 80h; every byte FFh.
        b'i' => Step::from([0x56204d, 0, 0, 0, 0]),
        b'j' => Step::from([0x567f4d, 0, 0, 0, 0]),
        b'k' => Step::from([0x8047464544434241, 0, 0, 0, 0]),
        b'l' => Step::from([0xffffffffffffffff, 0, 0, 0, 0]),
        // The same of a datum: 20h in the first, a hole in the last.
        b'm' => Step::from([MOVE, 0x2041, 0, 0, 0]),
        b'n' => Step::from([MOVE, A, B, A, 0x420041]),
        // A gap: the first datum, the third, all but the last.
        b'o' => Step::from([MOVE, 0, B, 0, 0]),
        b'p' => Step::from([MOVE, A, B, 0, A]),
        b'q' => Step::from([MOVE, 0, 0, 0, A]),
        // No command: with a datum, with none.
        b'r' => Step::from([0, A, 0, 0, 0]),
        b's' => Step::from([0, 0, 0, 0, 0]),
        // No data.
        _ => Step::from([MOVE, 0, 0, 0, 0]),
    }
}
