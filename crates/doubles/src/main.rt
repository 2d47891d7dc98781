// Reads pairs of frames from standard input, a request and its reply on a line, and prints what the reply carries with
// its numbers as doubles, each by the hexadecimal digits of its bits (document 02, E10). The stored output did not come from
// this program.
#![tactic(auto)]

use harl::message::{Asked, read_request};
use lines::reader::read_line;
use print::input::each_line;
use print::texts::Texts;
use print::words::{count, word};
use print::{Place, front, show, show_bytes};
use readings::convert::{Converted, Reading};
use readings::reply::read_converted;
use std::fmt;

// The bits of a double; of one that is no number, which no reading is, those of a quiet NaN.
fn bits_of(x: f64) -> u64 {
    if x != x {
        return 0x7ff8000000000000;
    }
    x.to_bits()
}

// A double by the hexadecimal digits of its bits.
#[derive(Clone, Copy)]
struct Bits(f64);

impl fmt::Display for Bits {
    fn fmt<W: fmt::Write>(&self, f: &mut fmt::Formatter<W>) -> fmt::Result {
        let bits = bits_of(self.0);
        write!(f, "{bits:016X}")
    }
}

// Numbers as doubles, behind what they are.
#[derive(Clone, Copy)]
struct Numbers(Reading);

impl fmt::Display for Numbers {
    fn fmt<W: fmt::Write>(&self, f: &mut fmt::Formatter<W>) -> fmt::Result {
        match self.0 {
            Reading::Seconds(x) => write!(f, "seconds {}", Bits(x)),
            Reading::Millimetres(row) => {
                let (x, y, z, w) = (Bits(row.x), Bits(row.y), Bits(row.z), Bits(row.w));
                write!(f, "millimetres {x} {y} {z} {w}")
            }
            Reading::Count(x) => write!(f, "count {}", Bits(x)),
        }
    }
}

// What a reply carries.
#[derive(Clone, Copy)]
struct Carried(Converted);

impl fmt::Display for Carried {
    fn fmt<W: fmt::Write>(&self, f: &mut fmt::Formatter<W>) -> fmt::Result {
        match self.0 {
            Converted::Reading(reading) => Numbers(reading).fmt(f),
            Converted::Step(n, step) => write!(f, "step {n}{}", Texts(step)),
            Converted::Status(n) => write!(f, "status {n:02}"),
        }
    }
}

fn answer_reply(rt: &impl Print, slice: &[u8], asked: Asked) {
    match read_converted(slice, asked) {
        Ok(what) => show(rt, format_args!("00 {}\n", Carried(what))),
        Err(refused) => show(rt, format_args!("{}\n", Place(refused))),
    }
}

// Answers a request and its reply.
fn answer_pair(rt: &impl Print, request: &[u8], reply: &[u8]) {
    match read_request(request) {
        Ok(asked) => answer_reply(rt, reply, asked),
        Err(refused) => show(rt, format_args!("asked {}\n", Place(refused))),
    }
}

// Answers a line of two slices in hexadecimal capitals with one space between them; any other is no pair.
fn answer_line(rt: &impl Print, line: &[u8]) {
    let mut request = [0u8; 256];
    let mut reply = [0u8; 256];
    if count(line, b' ') != 1 {
        show_bytes(rt, b"--\n");
        return;
    }
    let Some(m) = read_line(word(line, 0), &mut request) else {
        show_bytes(rt, b"--\n");
        return;
    };
    let Some(n) = read_line(word(line, 1), &mut reply) else {
        show_bytes(rt, b"--\n");
        return;
    };
    answer_pair(rt, front(&request, m), front(&reply, n));
}

// Answers every line of standard input. A line over 1,025 bytes is no pair, whatever follows.
fn main(rt: HostRuntime) {
    each_line::<1026, _>(|line| answer_line(&rt, line));
}
