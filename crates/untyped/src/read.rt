// A reply read for a program without typed values: the request by the code of its command, its number and its data, and
// what the reply carries by numbers.
ghost use Rattle.std.specs.Prelude.{◌≡◌};
ghost use Rattle.readings.specs.Reply.{read_values};
ghost use Rattle.untyped.specs.Untyped.{command_at, payload_for, read_coded, carrying, carried_by, numbers_of, outcome_for, doubles_for};
ghost use Rattle.readings.specs.declared.convert.Converted.TheVariants as converted;

use commands::request::{Parts, Payload, Row};
use commands::table::{Form, rule_of};
use harl::message::{Asked, judge_station};
use names::command::{COMMANDS, Command};
use readings::convert::{Converted, Reading, convert};
use readings::reply::read_converted;
use refusals::refusal::{Refusal, Refused};
use replies::reply::{Data, Outcome};
use steps::step::Step;

// The kinds of what a reply carries, as C knows them.
const NOTHING: u8 = 0;

const SECONDS: u8 = 1;

const MILLIMETRES: u8 = 2;

const COUNT: u8 = 3;

const STATUS: u8 = 4;

const STEP: u8 = 5;

// The number and the position of a refusal, 0 for none; the kind of what the reply carries; and the status, the doubles
// and the texts, 0 for each that there is none. C knows a reply by these numbers alone.
#[derive(Clone, Copy)]
pub struct Numbers {
    pub number: u8,
    pub position: usize,
    pub kind: u8,
    pub status: u8,
    pub doubles: [f64; 4],
    pub texts: [u64; 5],
}

// The data of a command's request: texts for a step, and numbers for any other.
fn payload_for(command: Command, values: [i32; 4], texts: [u64; 5]) -> Payload
    ensures { result ≡ payload_for command values texts }
{
    match rule_of(command).form {
        Form::Numbers(_) => Payload::Numbers(values.into()),
        Form::Texts => Payload::Texts(texts.into()),
    }
}

// The command of a code.
fn command_at(code: u8) -> Option<Command>
    ensures { result ≡ command_at code }
{
    COMMANDS.get(code as usize).copied()
}

// Reads the reply to the request of a command's code. One that is no command's is refused with 9, after 7.
fn read_coded(
    slice: &[u8],
    station: u8,
    code: u8,
    number: u16,
    values: [i32; 4],
    texts: [u64; 5],
) -> Result<Converted, Refused>
    ensures { read_values result ≡ read_coded slice.now station code number values texts }
{
    let Some(command) = command_at(code) else {
        judge_station(station)?;
        return Err(Refusal::Command.into());
    };
    let parts = Parts {
        command,
        number,
        payload: payload_for(command, values, texts),
    };
    read_converted(
        slice,
        Asked {
            station,
            request: parts.into(),
        },
    )
}

// What a reply carries that is accepted.
fn carried(kind: u8, status: u8, doubles: [f64; 4], texts: [u64; 5]) -> Numbers
    ensures { result ≡ carrying kind status doubles texts }
{
    Numbers {
        number: 0,
        position: 0,
        kind,
        status,
        doubles,
        texts,
    }
}

impl From<Reading> for Numbers {
    ghost from_gives = { λ reading numbers. numbers ≡ carried_by (converted.Reading reading) };

    fn from(reading: Reading) -> Numbers {
        match reading {
            Reading::Seconds(d) => carried(SECONDS, 0, [d, 0.0, 0.0, 0.0], [0; 5]),
            Reading::Millimetres(m) => carried(MILLIMETRES, 0, [m.x, m.y, m.z, m.w], [0; 5]),
            Reading::Count(d) => carried(COUNT, 0, [d, 0.0, 0.0, 0.0], [0; 5]),
        }
    }
}

impl From<Converted> for Numbers {
    ghost from_gives = { λ what numbers. numbers ≡ carried_by what };

    fn from(what: Converted) -> Numbers {
        match what {
            Converted::Reading(reading) => reading.into(),
            Converted::Status(n) => carried(STATUS, n, [0.0; 4], [0; 5]),
            Converted::Step(_, step) => carried(STEP, 0, [0.0; 4], step.into()),
        }
    }
}

impl From<Result<Converted, Refused>> for Numbers {
    ghost from_gives = { λ reply numbers. numbers ≡ numbers_of (read_values reply) };

    fn from(reply: Result<Converted, Refused>) -> Numbers {
        match reply {
            Ok(what) => what.into(),
            Err(refused) => Numbers {
                number: refused.refusal.number(),
                position: refused.position,
                kind: NOTHING,
                status: 0,
                doubles: [0.0; 4],
                texts: [0; 5],
            },
        }
    }
}

// Reads the reply to the request of a command's code, a number and data, and converts it. Of the data, an LN's request has
// none, an SNA's the texts, a row's all four values, and any other's the first.
pub fn read_doubles(
    slice: &[u8],
    station: u8,
    code: u8,
    number: u16,
    values: [i32; 4],
    texts: [u64; 5],
) -> Numbers
    ensures { result ≡ numbers_of (read_coded slice.now station code number values texts) }
{
    read_coded(slice, station, code, number, values, texts).into()
}

// Data of a kind: a timer's hundredths for seconds, a row's for millimetres, a whole number for a count. Any other kind has
// no double, and a status stands for it.
fn outcome_for(kind: u8, row: Row) -> Outcome
    ensures { result ≡ outcome_for kind row }
{
    match kind {
        SECONDS => Outcome::Data(Data::Timer(row.x)),
        MILLIMETRES => Outcome::Data(Data::Row(row)),
        COUNT => Outcome::Data(Data::Register(row.x)),
        _ => Outcome::Status(0),
    }
}

// Converts data of a kind, of which millimetres have four values and any other the first; 0 for each double that there is
// none.
pub fn convert_values(kind: u8, values: [i32; 4]) -> [f64; 4]
    ensures { result ≡ doubles_for kind values }
{
    Numbers::from(convert(outcome_for(kind, values.into()))).doubles
}
