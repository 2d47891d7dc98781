// The ranges of numbers and data.
ghost use Rattle.std.specs.Prelude.{◌≡◌};
ghost use Rattle.refusals.specs.Refusal.{refusal_number};
ghost use Rattle.data.specs.Ranges.{in_ranges, outside, judge};

use commands::request::Payload;
use commands::table::{Form, Rule};
use numbers::ranges::all_in_range;
use refusals::refusal::Refusal;
use steps::step::is_step;

// Whether data are of a form and in its range.
pub fn in_ranges(form: Form, payload: Payload) -> bool
    ensures { result ≡ in_ranges form payload }
{
    match (form, payload) {
        (Form::Numbers(kind), Payload::Numbers(row)) => all_in_range(kind, row),
        (Form::Texts, Payload::Texts(step)) => is_step(step),
        _ => false,
    }
}

// Check 11: whether a number is outside its command's range.
pub fn is_outside(rule: Rule, number: u16) -> bool
    ensures { result ≡ outside rule number }
{
    number < rule.first || rule.last < number
}

// Checks 11 and 12 of a number and of data, in that order.
#[tactic(auto, unfolding(crate::specs::Ranges::judge))]
pub fn judge_parts(rule: Rule, number: u16, payload: Payload) -> Result<(), Refusal>
    ensures { refusal_number result ≡ judge rule number payload }
{
    if is_outside(rule, number) {
        return Err(Refusal::Number);
    }
    if rule.store && !in_ranges(rule.form, payload) {
        return Err(Refusal::Value);
    }
    Ok(())
}
