// One call of each kind, and what its line says.
ghost use Rattle.std.specs.Prelude.{◌≤◌};

use crate::memory::{FILL, Lent, Memory, write_bytes};
use crate::ranges::try_row;
use crate::script::{Step, step_of};
use gateway::serve::serve;
use owned::arrays::Tables;
use print::words::word;
use print::{Number, Slice, Text, Written, show};
use slots::count::outputs_on;
use slots::input::input;
use slots::setup::setup;
use std::fmt;
use tables::arms::Arms;

// The stations that setup left.
#[derive(Clone, Copy)]
struct Stations([u8; 4]);

impl fmt::Display for Stations {
    fn fmt<W: fmt::Write>(&self, f: &mut fmt::Formatter<W>) -> fmt::Result {
        let [a, b, c, d] = self.0;
        write!(f, ", stations {a} {b} {c} {d}")
    }
}

// Whether every entry of tables is 0.
#[derive(Clone, Copy)]
struct Zero<'a>(&'a Tables);

impl fmt::Display for Zero<'_> {
    fn fmt<W: fmt::Write>(&self, f: &mut fmt::Formatter<W>) -> fmt::Result {
        if *self.0 == Tables::filled(0) {
            write!(f, " zero")
        } else {
            write!(f, " NOT ZERO")
        }
    }
}

// Sets up a box in other tables, every entry of which is 7 before, with p for START programs.
fn set_up_other(rt: &impl Print, p: &mut [u8], want: [u16; 4]) {
    let mut tables = Tables::filled(7);
    let mut s = [7u8; 4];
    let mut turn = 7;
    let answer = Number(setup(&mut tables.arms(), p, &mut s, &mut turn, want));
    let zero = Zero(&tables);
    show(
        rt,
        format_args!("{answer}{}, other tables{zero}", Stations(s)),
    );
}

// Sets up a box in other memory.
fn set_up(rt: &impl Print, want: [u16; 4]) {
    let mut p = [FILL; 40960];
    set_up_other(rt, &mut p, want);
}

// Sets up a box in other memory, with a number of bytes for START programs that are filled.
fn set_up_lent(rt: &impl Print, size: u16, want: [u16; 4]) {
    let mut p = [FILL; 65535];
    let end = size as usize;
    let lent = &mut p[..end];
    set_up_other(rt, lent, want);
    show(rt, Lent(lent));
}

// Serves a slice, with N bytes for its reply.
fn answer<const N: usize>(
    rt: &impl Print,
    arms: &mut Arms<'_>,
    p: &mut [u8],
    s: &[u8; 4],
    slice: &[u8],
)
    requires { N ≤ 64 }
{
    let mut reply = [0xaa; N];
    let sent = serve(arms, p, s, slice, &mut reply);
    let written = Written {
        number: sent.number,
        length: sent.length,
        none: ", no reply",
        area: &reply,
    };
    show(rt, format_args!("{}{written}", Slice(slice)));
}

// The same with a number of bytes for START programs that are filled.
fn answer_lent(rt: &impl Print, arms: &mut Arms<'_>, s: &[u8; 4], size: u16, slice: &[u8]) {
    let mut p = [FILL; 65535];
    let end = size as usize;
    let lent = &mut p[..end];
    answer::<64>(rt, arms, lent, s, slice);
    show(rt, Lent(lent));
}

fn put_outputs(rt: &impl Print, on: &[u16; 4], s: &[u8; 4], slot: usize) {
    match outputs_on(on, s, slot) {
        Ok(count) => show(rt, format_args!("00, {count} on")),
        Err(refusal) => show(rt, format_args!("{:02}, 0 on", refusal.number())),
    }
}

// Makes the call of a step, and says which it is and what it answered.
fn make(
    rt: &impl Print,
    arms: &mut Arms<'_>,
    p: &mut [u8],
    s: &mut [u8; 4],
    step: Step<'_>,
    line: &[u8],
) {
    match step {
        Step::Setup(want) => {
            let mut turn = 7;
            let answer = Number(setup(arms, p, s, &mut turn, want));
            show(rt, format_args!("{}: {answer}{}", Text(line), Stations(*s)));
        }
        Step::Other(want) => {
            show(rt, format_args!("{}: ", Text(line)));
            set_up(rt, want);
        }
        Step::SetupLent(size, want) => {
            show(rt, format_args!("{}: ", Text(line)));
            set_up_lent(rt, size, want);
        }
        Step::Input(slot, port, byte) => {
            let answer = Number(input(arms, s, slot, port, byte));
            show(rt, format_args!("{}: {answer}", Text(line)));
        }
        Step::Outputs(slot) => {
            show(rt, format_args!("{}: ", Text(line)));
            put_outputs(rt, arms.on, s, slot);
        }
        Step::ServeLent(size, slice) => {
            show(rt, format_args!("lent {} serving ", Text(word(line, 1))));
            answer_lent(rt, arms, s, size, slice);
        }
        Step::Bytes(at, bytes) => {
            show(rt, Slice(line));
            write_bytes(p, at, bytes);
        }
        Step::Memory => show(rt, Memory(p)),
        Step::Narrow(slice) => {
            show(rt, "serving in 63 bytes ");
            answer::<63>(rt, arms, p, s, slice);
        }
        Step::Ranges(row) => try_row(rt, arms, p, s, row),
        Step::Serve(slice) => {
            show(rt, "serving ");
            answer::<64>(rt, arms, p, s, slice);
        }
    }
}

// Makes the call of a line, and says what it answered and what it left in the tables: those of a new box are zero, and others
// changed or not. A row of ranges has lines of its own.
pub fn call(rt: &impl Print, tables: &mut Tables, p: &mut [u8], s: &mut [u8; 4], line: &[u8]) {
    let step = step_of(line);
    let before = *tables;
    make(rt, &mut tables.arms(), p, s, step, line);
    match step {
        Step::Ranges(_) => {}
        Step::Setup(_) => show(rt, format_args!(", tables{}\n", Zero(tables))),
        _ if *tables == before => show(rt, ", tables unchanged\n"),
        _ => show(rt, ", tables changed\n"),
    }
}
