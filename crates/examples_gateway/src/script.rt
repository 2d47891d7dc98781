// A line of the script as the step that it asks for.
use commands::request::Port;
use print::words::{number, part, stations, word};

// What a line asks for. Stations are those that setup is given.
#[derive(Clone, Copy)]
pub enum Step<'a> {
    // "setup" and four stations: a new box, in the memory of the last.
    Setup([u16; 4]),
    // "other setup" and four stations: a new box in other memory.
    Other([u16; 4]),
    // "input slot A port B byte C": an input call.
    Input(usize, Port, u8),
    // "outputs on slot A": how many outputs are on.
    Outputs(usize),
    // "lent A setup" and four stations: a new box in other memory, A bytes of it for START programs.
    SetupLent(u16, [u16; 4]),
    // "lent A serving =" and a slice: it is served with other A bytes for START programs.
    ServeLent(u16, &'a [u8]),
    // "bytes slot A step B text C =" and bytes: they are written into the START programs, from an index on.
    Bytes(usize, &'a [u8]),
    // "memory": what stands in the START programs.
    Memory,
    // "N" and a slice: it is served with a reply area of 63 bytes.
    Narrow(&'a [u8]),
    // "R" and a row of the table of ranges: a call for each end of each range, and one beyond.
    Ranges(&'a [u8]),
    // "S" and a slice: it is served with a reply area of 64 bytes.
    Serve(&'a [u8]),
}

// A size that word 1 of a line says: that of the START programs, one byte less, one more, or none.
pub fn size(line: &[u8]) -> u16 {
    match word(line, 1) {
        b"40959" => 40959,
        b"40960" => 40960,
        b"40961" => 40961,
        _ => 0,
    }
}

// What stands behind the first "=".
pub fn told(line: &[u8]) -> &[u8] {
    part(line, b'=', 1)
}

// The line from its second byte on.
pub fn rest(line: &[u8]) -> &[u8] {
    match line.split_first() {
        Some((_, rest)) => rest,
        None => line,
    }
}

// A line that begins with "lent".
fn lent(line: &[u8]) -> Step<'_> {
    match word(line, 2) {
        b"setup" => Step::SetupLent(size(line), stations(line, 3)),
        _ => Step::ServeLent(size(line), told(line)),
    }
}

// Where a text of a step of a slot's program stands, as a line of bytes says.
fn place(line: &[u8]) -> usize {
    number(line, 2) as usize * 10240 + number(line, 4) as usize * 40 + number(line, 6) as usize * 8
}

// Word k of a line as a byte: the lowest of its number.
pub fn byte(line: &[u8], k: usize) -> u8 {
    (number(line, k) % 256) as u8
}

// A line that begins with "input".
fn input(line: &[u8]) -> Step<'_> {
    let (slot, port) = (number(line, 2), number(line, 4));
    Step::Input(slot as usize, Port(port), byte(line, 6))
}

pub fn step_of(line: &[u8]) -> Step<'_> {
    match word(line, 0) {
        b"setup" => Step::Setup(stations(line, 1)),
        b"other" => Step::Other(stations(line, 2)),
        b"input" => input(line),
        b"outputs" => Step::Outputs(number(line, 3) as usize),
        b"lent" => lent(line),
        b"bytes" => Step::Bytes(place(line), told(line)),
        b"memory" => Step::Memory,
        _ => match line.first() {
            Some(b'N') => Step::Narrow(rest(line)),
            Some(b'R') => Step::Ranges(rest(line)),
            _ => Step::Serve(rest(line)),
        },
    }
}
