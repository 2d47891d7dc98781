// Takes standard input as one line of loose bytes, cut in four ways, and prints the slices that the receiver hands
// out; then feeds it a mebibyte of each of four kinds, and calls it by hand (document 02, E1). The stored output came
// from a model and not from this program.
#![tactic(auto)]

ghost use Rattle.std.specs.Prelude.{◌<◌, ◌≤◌, length};

use print::input::STDIN_FILENO;
use print::{Bytes, front, show};
use receiver::receive::{Receiver, Reception};
use std::fmt;

// What a call came to: how many bytes were taken, and the slice that was finished.
#[derive(Clone, Copy)]
struct Turn<'a> {
    taken: usize,
    slice: Option<&'a [u8]>,
}

// One call on what has arrived.
fn take_turn<'a>(receiver: &mut Receiver<'_>, arrived: &[u8], area: &'a mut [u8; 255]) -> Turn<'a>
    requires { 0 < length arrived.now }
    ensures { (0 < result.taken) × (result.taken ≤ length arrived.now) }
{
    // Room for any slice, so that no call is refused.
    let Ok(got) = receiver.receive(arrived, area) else {
        unreachable!()
    };
    Turn {
        taken: got.taken,
        slice: got.slice.map(|length| front(area, length)),
    }
}

// Calls `found` with each slice of an arrival.
fn each_slice<F: FnMut(&[u8])>(receiver: &mut Receiver<'_>, arrived: &[u8], mut found: F)
    requires { F.IsAlwaysCallable found }
{
    let mut area = [0u8; 255];
    let mut rest = arrived;
    // A `while`: each step takes as many bytes as its slice has.
    while !rest.is_empty() {
        let turn = take_turn(receiver, rest, &mut area);
        rest = &rest[turn.taken..];
        if let Some(slice) = turn.slice {
            found(slice);
        }
    }
}

// Prints the slices of a line that arrives by `size` bytes, from fresh state.
fn put_cut(rt: &impl Print, line: &[u8], size: usize)
    requires { 0 < size }
{
    let mut held = [0u8; 255];
    let mut count = 0u8;
    let mut receiver = Receiver {
        held: &mut held,
        count: &mut count,
    };
    for part in line.chunks(size) {
        each_slice(&mut receiver, part, |slice| {
            show(rt, format_args!("{}\n", Bytes(slice)));
        });
    }
}

// In each of the four ways; a line has at most 65,536 bytes.
fn put_cuts(rt: &impl Print, line: &[u8]) {
    show(rt, "by 1\n");
    put_cut(rt, line, 1);
    show(rt, "by 7\n");
    put_cut(rt, line, 7);
    show(rt, "by 254\n");
    put_cut(rt, line, 254);
    show(rt, "whole\n");
    put_cut(rt, line, 65536);
}

#[derive(Clone, Copy)]
enum Feed {
    Noise,
    Stx,
    Etx,
    Run,
}

impl fmt::Display for Feed {
    fn fmt<W: fmt::Write>(&self, f: &mut fmt::Formatter<W>) -> fmt::Result {
        match self {
            Feed::Noise => write!(f, "noise"),
            Feed::Stx => write!(f, "stx"),
            Feed::Etx => write!(f, "etx"),
            Feed::Run => write!(f, "run"),
        }
    }
}

// Byte k of a feed.
fn byte_at(feed: Feed, k: usize) -> u8 {
    match feed {
        Feed::Noise => (4 + k % 252) as u8,
        Feed::Stx => 0x02,
        Feed::Etx => 0x03,
        Feed::Run => if k == 0 { 0x02 } else { 0x41 },
    }
}

// The 4096 bytes of a feed from byte `from` on.
fn arrival(feed: Feed, from: usize) -> [u8; 4096]
    requires { from < 1048576 }
{
    let mut bytes = io::buffer();
    for (i, byte) in bytes.iter_mut().enumerate() {
        *byte = byte_at(feed, from + i);
    }
    bytes
}

// Feeds 256 arrivals from fresh state; prints how many slices they hand out, and how many bytes are held then.
fn put_feed(rt: &impl Print, feed: Feed) {
    let mut held = [0u8; 255];
    let mut count = 0u8;
    let mut slices = 0u64;
    // The sum saturates, since no clause says how often a closure is called.
    for k in 0..256 {
        let bytes = arrival(feed, k * 4096);
        let mut receiver = Receiver {
            held: &mut held,
            count: &mut count,
        };
        each_slice(&mut receiver, &bytes, |_| slices = slices.saturating_add(1));
    }
    show(rt, format_args!("{feed} {slices} {count}\n"));
}

// A call by hand, with an area of `room` bytes: its number, what it took, the length of its slice, and the count that
// it left.
fn put_call(rt: &impl Print, receiver: &mut Receiver<'_>, arrived: &[u8], room: usize)
    requires { room ≤ 300 }
{
    let mut area = [0u8; 300];
    let told = Reception::from(receiver.receive(arrived, &mut area[..room]));
    let count = *receiver.count;
    show(
        rt,
        format_args!(
            "call {} {} {} {count}\n",
            told.number, told.taken, told.length
        ),
    );
}

fn put_calls(rt: &impl Print) {
    let mut held = [0u8; 255];
    let mut count = 0u8;
    let mut receiver = Receiver {
        held: &mut held,
        count: &mut count,
    };
    let rest = b"\x20\x4C\x4E\x54\x20\x35\x03\x51\x02";
    put_call(rt, &mut receiver, b"\x02\x31", 255);
    put_call(rt, &mut receiver, rest, 254);
    put_call(rt, &mut receiver, rest, 0);
    put_call(rt, &mut receiver, rest, 255);
    put_call(rt, &mut receiver, b"\x02", 300);
    put_call(rt, &mut receiver, b"", 255);
    *receiver.count = 255;
    put_call(rt, &mut receiver, b"\x03\x51", 255);
}

fn main(rt: HostRuntime) {
    let mut input = io::large_buffer();
    let got = io::read_full(STDIN_FILENO, &mut input);
    put_cuts(&rt, front(&input, got));
    put_feed(&rt, Feed::Noise);
    put_feed(&rt, Feed::Stx);
    put_feed(&rt, Feed::Etx);
    put_feed(&rt, Feed::Run);
    put_calls(&rt);
}
