// The body of a reply read.
ghost use Rattle.std.specs.Prelude.{◌≡◌, drop, Some};
ghost use Rattle.frame.specs.Fields.{fields};
ghost use Rattle.commands.specs.declared.table.Form.TheVariants.{Texts};
ghost use Rattle.data.specs.Data.{read_data};
ghost use Rattle.reply_reader.specs.Reader.{numbers_of, data_of, read_status, read_content, as_data, read_load_outcome, read_outcome};

use commands::request::{NO_STEP, Payload, Row, row_in, step_in};
use commands::table::{Form, Kind, Rule};
use data::data::{DataRead, read_data};
use data::ranges::in_ranges;
use replies::reply::{DONE, Data, Outcome, UNKNOWN};
use text::field::At;
use text::whole::{read_digits, read_whole};

// The data of a kind that these numbers are.
fn numbers_of(kind: Kind, row: Row) -> Data
    ensures { result ≡ numbers_of kind row }
{
    let v = row.x;
    match kind {
        Kind::Timer => Data::Timer(v),
        Kind::Register => Data::Register(v),
        Kind::Row => Data::Row(row),
        Kind::Signal => Data::Signal(v),
        Kind::Port => Data::Port(v),
    }
}

// Reads two digits as a status.
fn read_status(s: &[u8]) -> Option<Outcome>
    ensures { result ≡ read_status s.now }
{
    if s == DONE.as_slice() {
        return Some(Outcome::Status(0));
    }
    if s.len() != 2 {
        return None;
    }
    let digits = read_digits(At::front(s));
    if digits.end != 2 {
        return None;
    }
    Some(Outcome::Status(digits.value as u8))
}

// The data that a reply to an LN may carry: of the form of its command, and a step under the number that was asked for.
#[derive(Clone, Copy)]
struct Expected {
    form: Form,
    asked: u16,
}

impl Expected {
    // The data that were read.
    fn data_of(self, payload: Payload) -> Data
        ensures { result ≡ data_of self.form self.asked payload }
    {
        match self.form {
            Form::Numbers(kind) => numbers_of(kind, row_in(payload)),
            Form::Texts => Data::Step(self.asked, step_in(payload)),
        }
    }

    // What a reply carries whose data were read: they must be in range.
    fn held_in(self, payload: Payload) -> Option<Outcome>
        ensures { result ≡ as_data self.form self.asked (Some payload) }
    {
        if in_ranges(self.form, payload) {
            return Some(Outcome::Data(self.data_of(payload)));
        }
        None
    }

    // Reads the fields of a body from an index on as data in range.
    fn read_content(self, from: At<'_>) -> Option<Outcome>
        ensures { result ≡ as_data self.form self.asked (read_data self.form (fields (drop from.entry.index from.entry.text.now))) }
    {
        let mut step = NO_STEP;
        match read_data(self.form, from, &mut step) {
            Ok(DataRead::Numbers(row)) => self.held_in(Payload::Numbers(row)),
            Ok(DataRead::Texts) => self.held_in(Payload::Texts(step)),
            Err(_) => None,
        }
    }

    // Reads the asked number, and a step after it.
    fn read_asked(self, body: &[u8]) -> Option<Outcome>
        requires { self.form ≡ Texts }
        ensures { result ≡ as_data Texts self.asked (read_content Texts self.asked (fields body.now)) }
    {
        let number = read_whole(At::front(body)).ok()?;
        if number.value != self.asked || number.end == body.len() {
            return None;
        }
        let from = At {
            text: body,
            index: number.end + 1,
        };
        self.read_content(from)
    }

    // Reads the body: "E" and a status, or data in range.
    fn read(self, body: &[u8]) -> Option<Outcome>
        ensures { result ≡ read_load_outcome self.form self.asked body.now }
    {
        if body == UNKNOWN.as_slice() {
            return Some(Outcome::Status(9));
        }
        if let Some(status) = body.strip_prefix(b"E") {
            return read_status(status);
        }
        match self.form {
            Form::Numbers(_) => self.read_content(At::front(body)),
            Form::Texts => self.read_asked(body),
        }
    }
}

// Reads the body of a reply to a command that was sent with a number; None where it carries nothing.
pub fn read_outcome(rule: Rule, asked: u16, body: &[u8]) -> Option<Outcome>
    ensures { result ≡ read_outcome rule asked body.now }
{
    if rule.store {
        return read_status(body);
    }
    let expected = Expected {
        form: rule.form,
        asked,
    };
    expected.read(body)
}
