// The script: lines of which each ends with the byte 00h, which no slice here has. The first byte of a line says
// what it asks for.
use crate::{frames, numerals};
use examples_gateway::calls::call;
use examples_harl::{answers, requests};
use owned::arrays::Tables;
use print::words::count;
use print::{Text, show};

// The byte at an index; 0 where there is none.
fn byte(s: &[u8], n: usize) -> u8 {
    s.get(n).copied().unwrap_or(0)
}

// The line from a byte on.
fn from(line: &[u8], n: usize) -> &[u8] {
    line.get(n..).unwrap_or(line)
}

// A line that needs no tables: "#" a heading, F a slice read as a frame, H a text read as hundredths, W a text read as
// a whole number, Q a slice read as a request, P a letter and a slice read as the reply to the request of that letter;
// T and t a letter whose request is written, into 64 and 63 bytes, Y and y one whose reply is.
fn read(rt: &impl Print, line: &[u8]) {
    let rest = from(line, 1);
    let letter = byte(line, 1);
    match byte(line, 0) {
        b'F' => frames::read(rt, rest),
        b'H' => numerals::read_as_hundredths(rt, rest),
        b'W' => numerals::read_as_whole(rt, rest),
        b'Q' => requests::read(rt, rest),
        b'P' => answers::read(rt, letter, from(line, 2)),
        b'T' => requests::write_typed(rt, letter),
        b't' => requests::write_narrow(rt, letter),
        b'Y' => answers::write_typed(rt, letter),
        b'y' => answers::write_narrow(rt, letter),
        _ => show(rt, format_args!("{}\n", Text(line))),
    }
}

// Whether a line is for the tables: setup, other setup, input, outputs, lent, bytes, memory, S, N or R.
fn is_call(line: &[u8]) -> bool {
    matches!(
        byte(line, 0),
        b's' | b'o' | b'i' | b'l' | b'b' | b'm' | b'S' | b'N' | b'R'
    )
}

// Does what each line of a script asks for.
pub fn run(rt: &impl Print, tables: &mut Tables, p: &mut [u8], s: &mut [u8; 4], script: &[u8]) {
    for line in script.split(|b| *b == 0).take(count(script, 0)) {
        if is_call(line) {
            call(rt, tables, p, s, line);
        } else {
            read(rt, line);
        }
    }
}
