// Typed requests, and their parts. Numbers and data are wide enough to be out of range: a typed value that
// no request can carry is refused by its writer.
ghost use Rattle.std.specs.Prelude.{◌≡◌};
ghost use Rattle.commands.specs.Request.{row_fields, row_of, one, row_in, step_in, bare_parts, single_parts, parts_of, load_parts, store_parts, request_of};

use names::command::Command;
use steps::step::Step;
use steps::texts::Text;

// The number of one signal or memory bit. It is never interchangeable with a port's.
#[derive(Clone, Copy)]
pub struct Signal(pub u16);

// The number of a port of eight.
#[derive(Clone, Copy)]
pub struct Port(pub u16);

// An offset row in hundredths of a millimetre. As the data of another kind, a single number stands in x.
#[derive(Clone, Copy)]
pub struct Row {
    pub x: i32,
    pub y: i32,
    pub z: i32,
    pub w: i32,
}

// What an LN asks for.
#[derive(Clone, Copy)]
pub enum Load {
    Timer(u16),
    Register(u16),
    Row(u16),
    Input(Signal),
    InputPort(Port),
    Output(Signal),
    OutputPort(Port),
    MemoryBit(Signal),
    MemoryPort(Port),
    Step(u16),
}

// What an SN replaces, and by what.
#[derive(Clone, Copy)]
pub enum Store {
    Timer(u16, i32),
    Register(u16, i32),
    Row(u16, Row),
    Output(Signal, i32),
    OutputPort(Port, i32),
    MemoryBit(Signal, i32),
    MemoryPort(Port, i32),
    Step(u16, Step),
}

#[derive(Clone, Copy)]
pub enum Request {
    Load(Load),
    Store(Store),
}

// The data of a request: none for an LN, the numbers or the texts of an SN. One enum of three, so that a match needs no
// second one inside an Option.
#[derive(Clone, Copy)]
pub enum Payload {
    None,
    Numbers(Row),
    Texts(Step),
}

// A request as its text has it: the command, the number, and the data.
#[derive(Clone, Copy)]
pub struct Parts {
    pub command: Command,
    pub number: u16,
    pub payload: Payload,
}

// The fields of a row, in their order.
impl From<Row> for [i32; 4] {
    ghost from_gives = { λ row fields. fields ≡ row_fields row };

    fn from(row: Row) -> [i32; 4] {
        [row.x, row.y, row.z, row.w]
    }
}

// The row of these fields.
impl From<[i32; 4]> for Row {
    ghost from_gives = { λ fields row. row ≡ row_of fields };

    fn from(fields: [i32; 4]) -> Row {
        Row {
            x: fields[0],
            y: fields[1],
            z: fields[2],
            w: fields[3],
        }
    }
}

// The data of every kind but a row: a single number.
impl From<i32> for Row {
    ghost from_gives = { λ v row. row ≡ one v };

    fn from(v: i32) -> Row {
        Row {
            x: v,
            y: 0,
            z: 0,
            w: 0,
        }
    }
}

// The row that a payload holds; zeros where it holds none. Beside `step_in`: another case, and another value for none.
pub fn row_in(payload: Payload) -> Row
    ensures { result ≡ row_in payload }
{
    match payload {
        Payload::Numbers(row) => row,
        Payload::Texts(_) | Payload::None => Row::from(0),
    }
}

// A step without a text.
pub const NO_STEP: Step = Step {
    command: Text(0),
    first: Text(0),
    second: Text(0),
    third: Text(0),
    fourth: Text(0),
};

// The step that a payload holds; one without a text where it holds none.
pub fn step_in(payload: Payload) -> Step
    ensures { result ≡ step_in payload }
{
    match payload {
        Payload::Texts(step) => step,
        Payload::Numbers(_) | Payload::None => NO_STEP,
    }
}

fn bare(command: Command, number: u16) -> Parts
    ensures { result ≡ bare_parts command number }
{
    Parts {
        command,
        number,
        payload: Payload::None,
    }
}

fn single(command: Command, number: u16, v: i32) -> Parts
    ensures { result ≡ single_parts command number v }
{
    Parts {
        command,
        number,
        payload: Payload::Numbers(Row::from(v)),
    }
}

// The parts of a load.
impl From<Load> for Parts {
    ghost from_gives = { λ load parts. parts ≡ load_parts load };

    fn from(load: Load) -> Parts {
        match load {
            Load::Timer(n) => bare(Command::Lnt, n),
            Load::Register(n) => bare(Command::Lnd, n),
            Load::Row(n) => bare(Command::Lnl, n),
            Load::Input(s) => bare(Command::Lnib, s.0),
            Load::InputPort(p) => bare(Command::Lnid, p.0),
            Load::Output(s) => bare(Command::Lnob, s.0),
            Load::OutputPort(p) => bare(Command::Lnod, p.0),
            Load::MemoryBit(s) => bare(Command::Lnbb, s.0),
            Load::MemoryPort(p) => bare(Command::Lnbd, p.0),
            Load::Step(n) => bare(Command::Lna, n),
        }
    }
}

// The parts of a store.
impl From<Store> for Parts {
    ghost from_gives = { λ store parts. parts ≡ store_parts store };

    fn from(store: Store) -> Parts {
        match store {
            Store::Timer(n, v) => single(Command::Snt, n, v),
            Store::Register(n, v) => single(Command::Snd, n, v),
            Store::Row(n, row) => Parts {
                command: Command::Snl,
                number: n,
                payload: Payload::Numbers(row),
            },
            Store::Output(s, v) => single(Command::Snob, s.0, v),
            Store::OutputPort(p, v) => single(Command::Snod, p.0, v),
            Store::MemoryBit(s, v) => single(Command::Snbb, s.0, v),
            Store::MemoryPort(p, v) => single(Command::Snbd, p.0, v),
            Store::Step(n, step) => Parts {
                command: Command::Sna,
                number: n,
                payload: Payload::Texts(step),
            },
        }
    }
}

// The parts of a request.
impl From<Request> for Parts {
    ghost from_gives = { λ request parts. parts ≡ parts_of request };

    fn from(request: Request) -> Parts {
        match request {
            Request::Load(load) => load.into(),
            Request::Store(store) => store.into(),
        }
    }
}

// The request that has these parts.
impl From<Parts> for Request {
    ghost from_gives = { λ parts request. request ≡ request_of parts };

    fn from(parts: Parts) -> Request {
        let n = parts.number;
        let row = row_in(parts.payload);
        let v = row.x;
        match parts.command {
            Command::Lnt => Request::Load(Load::Timer(n)),
            Command::Snt => Request::Store(Store::Timer(n, v)),
            Command::Lnd => Request::Load(Load::Register(n)),
            Command::Snd => Request::Store(Store::Register(n, v)),
            Command::Lnl => Request::Load(Load::Row(n)),
            Command::Snl => Request::Store(Store::Row(n, row)),
            Command::Lnib => Request::Load(Load::Input(Signal(n))),
            Command::Lnob => Request::Load(Load::Output(Signal(n))),
            Command::Snob => Request::Store(Store::Output(Signal(n), v)),
            Command::Lnid => Request::Load(Load::InputPort(Port(n))),
            Command::Lnod => Request::Load(Load::OutputPort(Port(n))),
            Command::Snod => Request::Store(Store::OutputPort(Port(n), v)),
            Command::Lnbb => Request::Load(Load::MemoryBit(Signal(n))),
            Command::Snbb => Request::Store(Store::MemoryBit(Signal(n), v)),
            Command::Lnbd => Request::Load(Load::MemoryPort(Port(n))),
            Command::Snbd => Request::Store(Store::MemoryPort(Port(n), v)),
            Command::Lna => Request::Load(Load::Step(n)),
            Command::Sna => Request::Store(Store::Step(n, step_in(parts.payload))),
        }
    }
}
