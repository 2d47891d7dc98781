// The body of a request, read and written. Serving reads a body whose frame and station it has judged.
ghost use Rattle.std.specs.Prelude.{◌≡◌, ◌≤◌, ◌+◌, true, cond, eqb, length, drop};
ghost use Rattle.text.specs.Put.{Put};
ghost use Rattle.frame.specs.Fields.{placed};
ghost use Rattle.frame.specs.Frame.{read_frame};
ghost use Rattle.steps.specs.declared.step.Step.{Step};
ghost use Rattle.steps.specs.Step.{is_step};
ghost use Rattle.names.specs.declared.command.Command.TheVariants.{Sna};
ghost use Rattle.commands.specs.declared.request.Payload.TheVariants as payload;
ghost use Rattle.commands.specs.Table.{rule_of};
ghost use Rattle.bodies.specs.Body.{given, request_or_refusal, read_body, body_text};
ghost use Rattle.bodies.specs.Position.{fields_position, body_position, shape_in, shape_with, judged_at, request_with, judged_with};

use commands::request::{Parts, Payload, Request, Row, Store};
use commands::table::{Rule, rule_of};
use data::data::{DataRead, put_data, read_data};
use data::ranges::{is_outside, judge_parts};
use names::command::{Command, put_name, read_name};
use refusals::refusal::{Refusal, Refused};
use steps::step::Step;
use text::field::{At, Malformed};
use text::put::{Cursor, put_byte};
use text::whole::{put_shortest, read_whole};

// What the fields after a name are: a number, data (zeros for an LN, which has none), and where the data start.
#[derive(Clone, Copy)]
pub struct Shape {
    pub number: u16,
    pub data: DataRead,
    pub start: usize,
}

// What an accepted body asks for: a request; or that a step be stored under this number, whose texts stand in a step that the
// caller lends. So no accepted request is copied with room for them (docs/SPEED.md).
#[derive(Clone, Copy)]
pub enum Parsed {
    Request(Request),
    Step(u16),
}

// Why a body is refused, and the position in the slice where it is wrong; and whether it has an SN name, on which the form of
// its reply depends.
#[derive(Clone, Copy)]
pub struct RefusedBody {
    pub refused: Refused,
    pub store: bool,
}

// The same without the form of a reply.
impl From<RefusedBody> for Refused {
    ghost from_gives = { λ body refused. refused ≡ body.refused };

    fn from(body: RefusedBody) -> Refused {
        body.refused
    }
}

// Reads the fields from an index on, which are those after the name.
fn read_shape(rule: Rule, from: At<'_>, step: &mut Step) -> Result<Shape, Malformed>
    ensures { shape_with rule.store step.new result ≡ shape_in rule from.entry.text.now from.entry.index }
{
    let text = from.text;
    let number = read_whole(from)?;
    if number.end == text.len() {
        if rule.store {
            return Err(Malformed {
                position: number.end,
            });
        }
        return Ok(Shape {
            number: number.value,
            data: DataRead::Numbers(Row::from(0)),
            start: number.end,
        });
    }
    let start = number.end + 1;
    if !rule.store {
        return Err(Malformed { position: start });
    }
    let data = read_data(rule.form, At { text, index: start }, step)?;
    Ok(Shape {
        number: number.value,
        data,
        start,
    })
}

// Checks 11 and 12 of a command's number and of the numbers that are its data, which stand at these positions.
#[tactic(auto, using(crate::proofs::Requests::given_judged, crate::proofs::Requests::given_built), unfolding(crate::specs::Body::request_or_refusal))]
fn request_or_refusal(
    command: Command,
    rule: Rule,
    n: u16,
    row: Row,
    number: usize,
    datum: usize,
) -> Result<Parsed, RefusedBody>
    requires { rule ≡ rule_of command }
    ensures { (s : Step) → judged_with s result ≡ judged_at (λ m. cond (eqb m 11) number datum) (request_or_refusal command n (given rule.store row)) }
{
    let payload = Payload::Numbers(row);
    if let Err(refusal) = judge_parts(rule, n, payload) {
        let position = if refusal == Refusal::Number {
            number
        } else {
            datum
        };
        return Err(RefusedBody {
            refused: Refused::at(refusal, position),
            store: rule.store,
        });
    }
    let parts = Parts {
        command,
        number: n,
        payload,
    };
    Ok(Parsed::Request(parts.into()))
}

// Check 11 of the number of a step, which stands at this position. Check 12 passes, since the step was read.
#[tactic(auto, unfolding(crate::specs::Body::request_or_refusal, data::specs::Ranges::judge))]
fn step_or_refusal(rule: Rule, n: u16, number: usize) -> Result<Parsed, RefusedBody>
    requires { rule ≡ rule_of Sna }
    ensures { (s : Step) → is_step s ≡ true → judged_with s result ≡ judged_at (λ m. number) (request_or_refusal Sna n (payload.Texts s)) }
{
    if is_outside(rule, n) {
        return Err(RefusedBody {
            refused: Refused::at(Refusal::Number, number),
            store: true,
        });
    }
    Ok(Parsed::Step(n))
}

// Reads the fields from an index on as a request: checks 9 to 12, in their order.
fn read_fields(from: At<'_>, step: &mut Step) -> Result<Parsed, RefusedBody>
    ensures { judged_with step.new result ≡ judged_at (fields_position (length from.entry.text.now) (placed from.entry.index (drop from.entry.index from.entry.text.now))) (read_body (drop from.entry.index from.entry.text.now)) }
{
    let text = from.text;
    let Some(name) = read_name(&text[from.index..]) else {
        return Err(RefusedBody {
            refused: Refused::at(Refusal::Command, from.index),
            store: false,
        });
    };
    let command = name.value;
    let rule = rule_of(command);
    let end = from.index + name.end;
    if end == text.len() {
        return Err(RefusedBody {
            refused: Refused::at(Refusal::Shape, end),
            store: rule.store,
        });
    }
    let number = At {
        text,
        index: end + 1,
    };
    let shape = match read_shape(rule, number, step) {
        Ok(shape) => shape,
        Err(malformed) => {
            return Err(RefusedBody {
                refused: Refused::at(Refusal::Shape, malformed.position),
                store: rule.store,
            });
        }
    };
    match shape.data {
        DataRead::Numbers(row) => request_or_refusal(
            command,
            rule,
            shape.number,
            row,
            number.index,
            shape.start,
        ),
        DataRead::Texts => step_or_refusal(rule, shape.number, number.index),
    }
}

// Reads the body of an accepted frame, which stands before the slice's last two bytes: checks 9 to 12, in their order.
pub fn read_body(slice: &[u8], body: &[u8], step: &mut Step) -> Result<Parsed, RefusedBody>
    requires { ((read_frame slice.now).number ≡ 0) × (body.now ≡ (read_frame slice.now).body) }
    ensures { judged_with step.new result ≡ judged_at (body_position slice.now) (read_body (read_frame slice.now).body) }
{
    let etx = slice.len() - 2;
    let from = At {
        text: &slice[..etx],
        index: etx - body.len(),
    };
    read_fields(from, step)
}

// The request that an accepted body is, with the texts of this step.
pub fn request_with(step: Step, parsed: Parsed) -> Request
    ensures { result ≡ request_with step parsed }
{
    match parsed {
        Parsed::Request(request) => request,
        Parsed::Step(n) => Request::Store(Store::Step(n, step)),
    }
}

// Writes the body of a request.
#[tactic(auto, unfolding(crate::specs::Body::body_text))]
pub fn put_body(area: &mut [u8], to: Cursor, parts: Parts) -> Cursor
    requires { to.at + length (body_text parts) ≤ length area.old }
    ensures { Put area.old to (body_text parts) result area.new }
{
    let rule = rule_of(parts.command);
    let space = put_name(area, to, parts.command);
    let digits = put_byte(area, space, b' ');
    let end = put_shortest(area, digits, parts.number);
    if rule.store {
        let from = put_byte(area, end, b' ');
        return put_data(area, from, rule.form, parts.payload);
    }
    end
}
