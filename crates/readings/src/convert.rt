// What a reply carries, with its numbers as doubles.
ghost use Rattle.std.specs.Prelude.{◌≡◌};
ghost use Rattle.readings.specs.Double.{double, from_hundredths};
ghost use Rattle.readings.specs.Convert.{millimetres_of, counted, convert_data, convert_outcome};

use commands::request::Row;
use replies::reply::{Data, Outcome};
use steps::step::Step;

// A row of millimetres.
#[derive(Clone, Copy)]
pub struct Millimetres {
    pub x: f64,
    pub y: f64,
    pub z: f64,
    pub w: f64,
}

// The numbers of a reply as doubles: a timer, an offset row, or the value of a register, a signal or a port.
#[derive(Clone, Copy)]
pub enum Reading {
    Seconds(f64),
    Millimetres(Millimetres),
    Count(f64),
}

// What a reply carries, converted: a reading, or what has no double and stays as it is: a step's number and its texts, or
// a status.
#[derive(Clone, Copy)]
pub enum Converted {
    Reading(Reading),
    Step(u16, Step),
    Status(u8),
}

// Hundredths as a double, divided once.
fn from_hundredths(n: i32) -> f64
    ensures { result ≡ from_hundredths n }
{
    n as f64 / 100.0
}

impl From<Row> for Millimetres {
    ghost from_gives = { λ row millimetres. millimetres ≡ millimetres_of row };

    fn from(row: Row) -> Millimetres {
        Millimetres {
            x: from_hundredths(row.x),
            y: from_hundredths(row.y),
            z: from_hundredths(row.z),
            w: from_hundredths(row.w),
        }
    }
}

fn count(n: i32) -> Converted
    ensures { result ≡ counted n }
{
    Converted::Reading(Reading::Count(n as f64))
}

// Three arms for counts: Rattle proves no or-pattern that binds a signed number beside an arm with a call.
fn convert_data(held: Data) -> Converted
    ensures { result ≡ convert_data held }
{
    match held {
        Data::Timer(n) => Converted::Reading(Reading::Seconds(from_hundredths(n))),
        Data::Register(n) => count(n),
        Data::Row(row) => Converted::Reading(Reading::Millimetres(row.into())),
        Data::Signal(n) => count(n),
        Data::Port(n) => count(n),
        Data::Step(n, step) => Converted::Step(n, step),
    }
}

// Converts what a reply carries.
pub fn convert(outcome: Outcome) -> Converted
    ensures { result ≡ convert_outcome outcome }
{
    match outcome {
        Outcome::Data(held) => convert_data(held),
        Outcome::Status(n) => Converted::Status(n),
    }
}
