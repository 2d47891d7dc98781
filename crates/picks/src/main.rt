// Does what each line of standard input asks for on a box with two ports (document 02, E5), and prints what came of it, and the
// turn afterwards. The stored output did not come from this program. A line is one of
//   next A N B M ROOM        the next slice is served: of each port its buffer and its waiting length, and the room for a reply
//   choose A N B M           it is picked alone
//   turn N                   the turn is set, as no call does
//   setup S S S S            the stations
//   input SLOT PORT BYTE
//   count SLOT
// with buffers in hexadecimal capitals, "-" for an empty one, and numbers of up to four digits.
#![tactic(auto)]

use chooser::choose::{Buffer, Port, choose};
use commands::request;
use hosts::next::serve_next;
use lines::reader::read_line;
use owned::arrays::Tables;
use print::input::STDIN_FILENO;
use print::words::{byte, count, number, stations, word};
use print::{Bytes, Number, Written, front, show};
use refusals::refusal::{Refusal, Refused};
use slots::count::outputs_on;
use slots::input::input;
use slots::setup::setup;
use std::fmt;
use tables::arms::Arms;

// Word k of a line as the bytes of a port's buffer, and the next word as how many of them wait.
fn read_buffer<'a>(line: &[u8], k: u8, bytes: &'a mut [u8; 256]) -> Buffer<'a> {
    let at = k as usize;
    let length = read_line(word(line, at), bytes).unwrap_or(0);
    Buffer {
        bytes: front(bytes, length),
        waiting: number(line, at + 1) as usize,
    }
}

// The name of a port that was picked, or "-" for none.
#[derive(Clone, Copy)]
struct Picked(Option<Port>);

impl fmt::Display for Picked {
    fn fmt<W: fmt::Write>(&self, f: &mut fmt::Formatter<W>) -> fmt::Result {
        match self.0 {
            Some(Port::A) => write!(f, "A"),
            Some(Port::B) => write!(f, "B"),
            None => write!(f, "-"),
        }
    }
}

// Serves the next slice. The reply area is filled with AAh before.
fn serve_ports(
    rt: &impl Print,
    arms: &mut Arms<'_>,
    programs: &mut [u8],
    stations: &[u8; 4],
    turn: &mut u8,
    line: &[u8],
) {
    let mut a = [0u8; 256];
    let mut b = [0u8; 256];
    let first = read_buffer(line, 1, &mut a);
    let second = read_buffer(line, 3, &mut b);
    let mut area = [0xaa; 99];
    let room = (number(line, 5) as usize).min(99);
    let reply = &mut area[..room];
    let (port, sent) = match serve_next(arms, programs, stations, turn, first, second, reply) {
        Ok(served) => (Some(served.port), served.sent),
        Err(refusal) => (None, Refused::at(refusal, 0).into()),
    };
    let written = Written {
        number: sent.number,
        length: sent.length,
        none: ", no reply",
        area: reply,
    };
    show(
        rt,
        format_args!("{}{written} @{}", Picked(port), sent.position),
    );
}

// Picks the next slice, and prints it.
fn choose_port(rt: &impl Print, turn: &mut u8, line: &[u8]) {
    let mut a = [0u8; 256];
    let mut b = [0u8; 256];
    let first = read_buffer(line, 1, &mut a);
    let second = read_buffer(line, 3, &mut b);
    match choose(turn, first, second) {
        Ok(choice) => {
            let port = Picked(Some(choice.port));
            show(rt, format_args!("{port}: 00 {}", Bytes(choice.part)));
        }
        Err(refusal) => {
            let port = Picked(None);
            show(rt, format_args!("{port}: {:02}", refusal.number()));
        }
    }
}

fn put_count(rt: &impl Print, told: Result<u16, Refusal>) {
    match told {
        Ok(count) => show(rt, format_args!("count: 00 {count}")),
        Err(refusal) => show(rt, format_args!("count: {:02} 0", refusal.number())),
    }
}

// Does what a line asks for. The first words differ in their third letter, and only that is looked at, so that any word asks for
// something.
fn answer_line(
    rt: &impl Print,
    arms: &mut Arms<'_>,
    programs: &mut [u8],
    fitted: &mut [u8; 4],
    turn: &mut u8,
    line: &[u8],
) {
    match line.get(2) {
        Some(b'x') => serve_ports(rt, arms, programs, fitted, turn, line),
        Some(b'o') => choose_port(rt, turn, line),
        Some(b'r') => {
            *turn = byte(line, 1);
            show(rt, "set");
        }
        Some(b't') => {
            let answer = setup(arms, programs, fitted, turn, stations(line, 1));
            show(rt, format_args!("setup: {}", Number(answer)));
        }
        Some(b'p') => {
            let slot = number(line, 1) as usize;
            let port = request::Port(number(line, 2));
            let answer = input(arms, fitted, slot, port, byte(line, 3));
            show(rt, format_args!("input: {}", Number(answer)));
        }
        _ => put_count(rt, outputs_on(arms.on, fitted, number(line, 1) as usize)),
    }
}

// Answers every line of the input, each of which LF ends, and prints the turn behind each answer.
fn answer_lines(
    rt: &impl Print,
    arms: &mut Arms<'_>,
    programs: &mut [u8],
    fitted: &mut [u8; 4],
    turn: &mut u8,
    lines: &[u8],
) {
    for line in lines.split(|b| *b == b'\n').take(count(lines, b'\n')) {
        answer_line(rt, arms, programs, fitted, turn, line);
        show(rt, format_args!(" turn {turn}\n"));
    }
}

// Answers the lines on a box of which no slot is fitted yet. The input has at most 131,072 bytes.
fn main(rt: HostRuntime) {
    let mut buffer = [0u8; 131072];
    let got = io::read_full(STDIN_FILENO, &mut buffer);
    let lines = front(&buffer, got);
    let mut tables = Tables::filled(0);
    let mut arms = tables.arms();
    let mut programs = [0u8; 40960];
    let mut fitted = [0u8; 4];
    let mut turn = 0;
    answer_lines(&rt, &mut arms, &mut programs, &mut fitted, &mut turn, lines);
}
