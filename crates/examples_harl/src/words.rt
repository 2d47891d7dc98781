// Typed requests, and what replies carry, in words.
use commands::request::{Load, Request, Row, Store};
use harl::message::Asked;
use print::texts::Texts;
use replies::reply::{Data, Outcome};
use std::fmt;

// The values of a row.
#[derive(Clone, Copy)]
struct Fields(Row);

impl fmt::Display for Fields {
    fn fmt<W: fmt::Write>(&self, f: &mut fmt::Formatter<W>) -> fmt::Result {
        let row = self.0;
        write!(f, "{} {} {} {}", row.x, row.y, row.z, row.w)
    }
}

// What an LN asks for: its kind and its number.
#[derive(Clone, Copy)]
struct Loaded(Load);

impl fmt::Display for Loaded {
    fn fmt<W: fmt::Write>(&self, f: &mut fmt::Formatter<W>) -> fmt::Result {
        match self.0 {
            Load::Timer(n) => write!(f, "timer {n}"),
            Load::Register(n) => write!(f, "register {n}"),
            Load::Row(n) => write!(f, "row {n}"),
            Load::Input(s) => write!(f, "input {}", s.0),
            Load::InputPort(p) => write!(f, "input-port {}", p.0),
            Load::Output(s) => write!(f, "output {}", s.0),
            Load::OutputPort(p) => write!(f, "output-port {}", p.0),
            Load::MemoryBit(s) => write!(f, "memory-bit {}", s.0),
            Load::MemoryPort(p) => write!(f, "memory-port {}", p.0),
            Load::Step(n) => write!(f, "step {n}"),
        }
    }
}

// What an SN stores: its kind, its number, and its values.
#[derive(Clone, Copy)]
struct Stored(Store);

impl fmt::Display for Stored {
    fn fmt<W: fmt::Write>(&self, f: &mut fmt::Formatter<W>) -> fmt::Result {
        match self.0 {
            Store::Timer(n, v) => write!(f, "timer {n} {v}"),
            Store::Register(n, v) => write!(f, "register {n} {v}"),
            Store::Row(n, row) => write!(f, "row {n} {}", Fields(row)),
            Store::Output(s, v) => write!(f, "output {} {v}", s.0),
            Store::OutputPort(p, v) => write!(f, "output-port {} {v}", p.0),
            Store::MemoryBit(s, v) => write!(f, "memory-bit {} {v}", s.0),
            Store::MemoryPort(p, v) => write!(f, "memory-port {} {v}", p.0),
            Store::Step(n, step) => write!(f, "step {n}{}", Texts(step)),
        }
    }
}

// A request with its station.
#[derive(Clone, Copy)]
pub struct Wanted(pub Asked);

impl fmt::Display for Wanted {
    fn fmt<W: fmt::Write>(&self, f: &mut fmt::Formatter<W>) -> fmt::Result {
        let station = self.0.station;
        match self.0.request {
            Request::Load(load) => write!(f, "{station} load {}", Loaded(load)),
            Request::Store(store) => write!(f, "{station} store {}", Stored(store)),
        }
    }
}

// What a reply carries.
#[derive(Clone, Copy)]
pub struct Carried(pub Outcome);

impl fmt::Display for Carried {
    fn fmt<W: fmt::Write>(&self, f: &mut fmt::Formatter<W>) -> fmt::Result {
        match self.0 {
            Outcome::Data(data) => Held(data).fmt(f),
            Outcome::Status(n) => write!(f, "status {n}"),
        }
    }
}

// The data of a reply: their kind, and their values.
#[derive(Clone, Copy)]
struct Held(Data);

impl fmt::Display for Held {
    fn fmt<W: fmt::Write>(&self, f: &mut fmt::Formatter<W>) -> fmt::Result {
        match self.0 {
            Data::Timer(v) => write!(f, "timer {v}"),
            Data::Register(v) => write!(f, "register {v}"),
            Data::Row(row) => write!(f, "row {}", Fields(row)),
            Data::Signal(v) => write!(f, "signal {v}"),
            Data::Port(v) => write!(f, "port {v}"),
            Data::Step(n, step) => write!(f, "step {n}{}", Texts(step)),
        }
    }
}
