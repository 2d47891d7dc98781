// What a reply carries, and the body of a reply to a request that was performed or refused.
ghost use Rattle.std.specs.Prelude.{◌≡◌, ◌≤◌, ◌+◌, length};
ghost use Rattle.text.specs.Put.{Put};
ghost use Rattle.commands.specs.Request.{one};
ghost use Rattle.replies.specs.Reply.{numbers_content, content_of, status_text, number_part, content_text, number_in, performed_text, refusal_text};

use commands::request::{Payload, Row};
use commands::table::{Form, Kind};
use data::data::put_data;
use refusals::refusal::Refusal;
use steps::step::Step;
use text::put::{Cursor, put_byte, put_bytes};
use text::whole::{put_shortest, put_two_digits};

// The status of an SN that was done.
pub const DONE: [u8; 2] = *b"00";

// The reply to a name that is no command's.
pub const UNKNOWN: [u8; 3] = *b"E09";

// The data of a reply, by their kind; of a step, its number and its texts.
#[derive(Clone, Copy)]
pub enum Data {
    Timer(i32),
    Register(i32),
    Row(Row),
    Signal(i32),
    Port(i32),
    Step(u16, Step),
}

// What a reply carries: data, or a status. For an SN the status 0 means done. A status is a number, since a reply may carry
// any with two digits, and not the numbers of refusals alone.
#[derive(Clone, Copy)]
pub enum Outcome {
    Data(Data),
    Status(u8),
}

// Data by their form: a step with its number, numbers with 0, which nothing writes (`number_part`).
#[derive(Clone, Copy)]
pub struct Content {
    pub number: u16,
    pub form: Form,
    pub payload: Payload,
}

fn numbers(kind: Kind, row: Row) -> Content
    ensures { result ≡ numbers_content kind row }
{
    Content {
        number: 0,
        form: Form::Numbers(kind),
        payload: Payload::Numbers(row),
    }
}

fn single(kind: Kind, v: i32) -> Content
    ensures { result ≡ numbers_content kind (one v) }
{
    numbers(kind, Row::from(v))
}

// The form of data, and what they are.
impl From<Data> for Content {
    ghost from_gives = { λ held content. content ≡ content_of held };

    fn from(held: Data) -> Content {
        match held {
            Data::Timer(v) => single(Kind::Timer, v),
            Data::Register(v) => single(Kind::Register, v),
            Data::Row(row) => numbers(Kind::Row, row),
            Data::Signal(v) => single(Kind::Signal, v),
            Data::Port(v) => single(Kind::Port, v),
            Data::Step(n, step) => Content {
                number: n,
                form: Form::Texts,
                payload: Payload::Texts(step),
            },
        }
    }
}

// Writes a status: two digits, after "E" for an LN; of 100 or more, the last two digits.
#[tactic(auto, unfolding(crate::specs::Reply::status_text, text::specs::Whole::digit))]
pub fn put_status(area: &mut [u8], to: Cursor, store: bool, n: u8) -> Cursor
    requires { to.at + length (status_text store n) ≤ length area.old }
    ensures { Put area.old to (status_text store n) result area.new }
{
    if store {
        if n == 0 {
            return put_bytes(area, to, &DONE);
        }
        return put_two_digits(area, to, n as u16);
    }
    let digits = put_byte(area, to, b'E');
    put_two_digits(area, digits, n as u16)
}

// Writes what answers a refusal by its number: of a name that is no command's, or of an LN or SN name. Any number has its text
// (`refusal_text`): a `Refusal` would ask more of callers.
#[tactic(auto, using(crate::proofs::Texts::status_length))]
pub fn put_refusal(area: &mut [u8], to: Cursor, n: u8, store: bool) -> Cursor
    requires { to.at + 3 ≤ length area.old }
    ensures { Put area.old to (refusal_text n store) result area.new }
{
    if n == Refusal::Command.number() {
        return put_bytes(area, to, &UNKNOWN);
    }
    put_status(area, to, store, n)
}

// Writes the number and SP that stand before the texts of a step.
fn put_number(area: &mut [u8], to: Cursor, form: Form, n: u16) -> Cursor
    requires { to.at + length (number_part form n) ≤ length area.old }
    ensures { Put area.old to (number_part form n) result area.new }
{
    match form {
        Form::Numbers(_) => to,
        Form::Texts => {
            let end = put_shortest(area, to, n);
            put_byte(area, end, b' ')
        }
    }
}

// Writes the data of a reply.
pub fn put_held(area: &mut [u8], to: Cursor, held: Data) -> Cursor
    requires { to.at + length (content_text (content_of held)) ≤ length area.old }
    ensures { Put area.old to (content_text (content_of held)) result area.new }
{
    let content = Content::from(held);
    let from = put_number(area, to, content.form, content.number);
    put_data(area, from, content.form, content.payload)
}

// The refusal number of a request that was performed: a status is its own, and data have 0.
pub fn number_in(outcome: Outcome) -> u8
    ensures { result ≡ number_in outcome }
{
    match outcome {
        Outcome::Data(_) => 0,
        Outcome::Status(n) => n,
    }
}

// Writes what replies to a request that was performed. Of statuses, 0 is an SN's, and any other an LN's.
pub fn put_performed(area: &mut [u8], to: Cursor, outcome: Outcome) -> Cursor
    requires { to.at + length (performed_text outcome) ≤ length area.old }
    ensures { Put area.old to (performed_text outcome) result area.new }
{
    match outcome {
        Outcome::Data(held) => put_held(area, to, held),
        Outcome::Status(n) => put_status(area, to, n == 0, n),
    }
}
