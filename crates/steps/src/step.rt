// Steps: a command, and data that end before the first that is 0. All texts share one reader and one writer, which go from
// field to field.
ghost use Rattle.std.specs.Prelude.{◌≡◌, ◌≤◌, ◌+◌, length};
ghost use Rattle.text.specs.Put.{Put};
ghost use Rattle.steps.specs.Step.{is_datum, is_step, packed, step_from, step_in, step_text};

use crate::texts::{Text, is_text, put_text, read_text};
use text::field::{At, Malformed};
use text::put::{Cursor, put_byte};

// The command and the data, 0 for each that is not there: five numbers, as C lends them.
#[derive(Clone, Copy)]
pub struct Step {
    pub command: Text,
    pub first: Text,
    pub second: Text,
    pub third: Text,
    pub fourth: Text,
}

// The texts of a step, packed, in their order.
impl From<Step> for [u64; 5] {
    ghost from_gives = { λ step texts. texts ≡ packed step };

    fn from(step: Step) -> [u64; 5] {
        [
            step.command.0,
            step.first.0,
            step.second.0,
            step.third.0,
            step.fourth.0,
        ]
    }
}

// The step of these texts.
impl From<[u64; 5]> for Step {
    ghost from_gives = { λ texts step. step ≡ step_from texts };

    fn from(texts: [u64; 5]) -> Step {
        Step {
            command: Text(texts[0]),
            first: Text(texts[1]),
            second: Text(texts[2]),
            third: Text(texts[3]),
            fourth: Text(texts[4]),
        }
    }
}

// Reads the fields from an index on as a step. Not a step: at the first of five that is malformed; if none is, at the sixth.
pub fn read_step(from: At<'_>) -> Result<Step, Malformed>
    ensures { result ≡ step_in from.entry.text.now from.entry.index }
{
    let text = from.text;
    let mut texts: [u64; 5] = [0; 5];
    let mut next = from.index;
    // By its index: of what is written through `iter_mut`, no element is known.
    for i in 0..5 {
        if text.len() < next {
            return Ok(Step::from(texts));
        }
        let read = read_text(At { text, index: next });
        texts[i] = read.text?.0;
        next = read.end + 1;
    }
    if next <= text.len() {
        return Err(Malformed { position: next });
    }
    Ok(Step::from(texts))
}

// Whether t, with `next` behind it, can be a datum: a text, or none with none behind it.
#[tactic(auto, unfolding(crate::specs::Step::is_datum))]
fn is_datum(t: Text, next: u64) -> bool
    ensures { result ≡ is_datum t.0 next }
{
    if t.0 == 0 { next == 0 } else { is_text(t) }
}

// Whether s is a step: a command, and data without a gap.
#[tactic(auto, unfolding(crate::specs::Step::is_step, crate::specs::Step::are_data))]
pub fn is_step(s: Step) -> bool
    ensures { result ≡ is_step s }
{
    is_text(s.command)
        && is_datum(s.first, s.second.0)
        && is_datum(s.second, s.third.0)
        && is_datum(s.third, s.fourth.0)
        && is_datum(s.fourth, 0)
}

// Writes the texts of a step.
pub fn put_step(area: &mut [u8], to: Cursor, step: Step) -> Cursor
    requires { to.at + length (step_text step) ≤ length area.old }
    ensures { Put area.old to (step_text step) result area.new }
{
    let mut end = put_text(area, to, step.command);
    for datum in [step.first, step.second, step.third, step.fourth] {
        if datum.0 == 0 {
            return end;
        }
        let from = put_byte(area, end, b' ');
        end = put_text(area, from, datum);
    }
    end
}
