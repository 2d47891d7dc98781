// Compares the charts of signals as the manual prints them with the places that the gateway computes, and prints
// a line for each row. What must be printed stands in the file stdout, which was written from the manual and not
// from a run.
#![tactic(auto)]

mod printed; // printed.rt: the charts as printed

use crate::printed::{memory_bits, signals};
use commands::request::Signal;
use ports::signal::{FIRST_MEMORY_BIT, FIRST_SIGNAL, place_of};
use print::show;
use std::fmt;

#[derive(Clone, Copy)]
enum Chart {
    Signals,
    MemoryBits,
}

impl fmt::Display for Chart {
    fn fmt<W: fmt::Write>(&self, f: &mut fmt::Formatter<W>) -> fmt::Result {
        match self {
            Chart::Signals => write!(f, "signals"),
            Chart::MemoryBits => write!(f, "memory bits"),
        }
    }
}

// Whether the gateway finds a number of a chart at a bit of a port.
fn stands_at(chart: Chart, number: u16, port: usize, bit: usize) -> bool {
    let (first, end) = match chart {
        Chart::Signals => (FIRST_SIGNAL, 256),
        Chart::MemoryBits => (FIRST_MEMORY_BIT, 384),
    };
    if number < first || end <= number {
        return false;
    }
    let place = place_of(first, Signal(number));
    place.port == port && place.bit as usize == bit
}

// How many numbers of a port's row the gateway finds there. A row has the highest bit first.
fn agreeing(chart: Chart, port: usize, row: &[u16; 8]) -> usize {
    row.iter()
        .rev()
        .enumerate()
        .filter(|(bit, number)| stands_at(chart, **number, port, *bit))
        .count()
}

fn put_row(rt: &impl Print, chart: Chart, port: usize, row: &[u16; 8]) {
    show(rt, format_args!("{chart}, port {port}:"));
    for number in row {
        show(rt, format_args!(" {number}"));
    }
    show(rt, format_args!(": {} agree\n", agreeing(chart, port, row)));
}

fn put_chart(rt: &impl Print, chart: Chart, rows: &[[u16; 8]]) {
    for (port, row) in rows.iter().enumerate() {
        put_row(rt, chart, port, row);
    }
}

fn main(rt: HostRuntime) {
    put_chart(&rt, Chart::Signals, &signals());
    put_chart(&rt, Chart::MemoryBits, &memory_bits());
}
