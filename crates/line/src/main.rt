// Serves the frames that it finds in the loose bytes of standard input, and writes the replies to standard output after each
// read, so that both can be a serial device or a pseudo-terminal. What is done between reading and writing is the crate `link`.
//
// The arguments are the stations of slots 0 to 3, 0 for a slot that is unfitted, as is one without an argument; without any
// they are 1 2 3 4.
#![tactic(auto)]

ghost use Rattle.io.specs.Counts.{IsPrefixLen};

use link::arrived::serve_arrived;
use owned::arrays::Tables;
use receiver::receive::Receiver;
use slots::setup::setup;
use std::env::{Env, FillError};
use std::io::{Error, Read, Write};
use tables::arms::Arms;
use text::field::At;
use text::whole::read_whole;

// An argument that is no whole number.
#[derive(Clone, Copy)]
struct NoNumber;

// Writes on standard error what is wrong with the arguments, and what they should be. Where that cannot be written, nothing is
// left to tell.
fn complain(rt: &HostRuntime, what: &str) {
    let usage = "usage: line [STATION]...\n\
        Up to four stations, 0 to 99, no other than 0 twice; 0 is an unfitted slot. Without any: 1 2 3 4.";
    if eprintln!(rt; "line: {what}\n{usage}").is_err() {}
}

// The whole number that a text is.
fn read_number(text: &[u8]) -> Result<u16, NoNumber> {
    match read_whole(At::front(text)) {
        Ok(field) if field.end == text.len() => Ok(field.value),
        _ => Err(NoNumber),
    }
}

// What argument i is; None where it is missing. One that is longer than any station is no number.
fn read_argument(rt: &HostRuntime, i: usize) -> Option<Result<u16, NoNumber>> {
    let mut text = [0u8; 8];
    match rt.arg(i, &mut text) {
        Ok(n) => Some(read_number(&text[..n])),
        Err(FillError::TooLong) => Some(Err(NoNumber)),
        Err(FillError::NotPresent) => None,
    }
}

// Reads the stations from the arguments; None where they are no numbers, or too many, which is then told.
fn read_stations(rt: &HostRuntime) -> Option<[u16; 4]> {
    if read_argument(rt, 1).is_none() {
        return Some([1, 2, 3, 4]);
    }
    if read_argument(rt, 5).is_some() {
        complain(rt, "more than four arguments");
        return None;
    }
    let mut want = [0; 4];
    for (i, place) in want.iter_mut().enumerate() {
        match read_argument(rt, i + 1) {
            Some(Ok(station)) => {
                *place = station;
            }
            Some(Err(NoNumber)) => {
                complain(rt, "an argument is no number of one to four digits");
                return None;
            }
            None => {
                return Some(want);
            }
        }
    }
    Some(want)
}

// Writes on standard error what failed, and why. Where that cannot be written either, nothing is left to tell.
fn fail(rt: &HostRuntime, what: &str, error: Error) {
    if eprintln!(rt; "line: {what}: {error}").is_err() {}
}

// Reads what has arrived, and returns how many bytes: none at the input's end, and where reading fails. An Option is no plainer:
// no more comes in either case.
fn read_block(rt: &HostRuntime, input: &mut [u8]) -> usize
    ensures { IsPrefixLen result input.new }
{
    match rt.stdin().read(input) {
        Ok(n) => n,
        Err(error) => {
            fail(rt, "standard input", error);
            0
        }
    }
}

// Reads once, serves what has arrived, and writes the replies. Returns whether the line goes on.
fn serve_some(
    rt: &HostRuntime,
    arms: &mut Arms<'_>,
    programs: &mut [u8],
    stations: &[u8; 4],
    receiver: &mut Receiver<'_>,
    input: &mut [u8; 1024],
    out: &mut [u8; 65536],
) -> bool {
    let n = read_block(rt, input);
    if n == 0 {
        return false;
    }
    let length = serve_arrived(arms, programs, stations, receiver, &input[..n], out);
    match rt.stdout().write_all(&out[..length]) {
        Ok(()) => true,
        Err(error) => {
            fail(rt, "standard output", error);
            false
        }
    }
}

// Serves the line to its end. A proved loop has to end, and nothing says that the line does, so the reads are counted up to a
// number that no run reaches.
fn serve_line(
    rt: &HostRuntime,
    arms: &mut Arms<'_>,
    programs: &mut [u8],
    stations: &[u8; 4],
    input: &mut [u8; 1024],
    out: &mut [u8; 65536],
) {
    let mut held = [0u8; 255];
    let mut count = 0u8;
    let mut receiver = Receiver {
        held: &mut held,
        count: &mut count,
    };
    for _ in 0..u64::MAX {
        if !serve_some(rt, arms, programs, stations, &mut receiver, input, out) {
            return;
        }
    }
}

// Sets up the stations of the arguments, and serves the line.
fn main(rt: HostRuntime) {
    let Some(want) = read_stations(&rt) else {
        return;
    };
    let mut tables = Tables::filled(0);
    let mut arms = tables.arms();
    let mut programs = [0u8; 40960];
    let mut stations = [0u8; 4];
    let mut turn = 0;
    let set_up = setup(&mut arms, &mut programs, &mut stations, &mut turn, want);
    if set_up.is_err() {
        complain(&rt, "a station is above 99, or given twice");
        return;
    }
    let mut input = [0u8; 1024];
    let mut out = io::large_buffer();
    serve_line(
        &rt,
        &mut arms,
        &mut programs,
        &stations,
        &mut input,
        &mut out,
    );
}
