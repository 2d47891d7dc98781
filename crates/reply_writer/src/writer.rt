// What a typed reply carries, judged and written.
ghost use Rattle.std.specs.Prelude.{◌≡◌, ◌≤◌, ◌+◌, length};
ghost use Rattle.text.specs.Put.{Put};
ghost use Rattle.refusals.specs.Refusal.{refusal_number};
ghost use Rattle.reply_writer.specs.Writer.{number_fits, judge_outcome, outcome_text};

use commands::table::{Form, Rule};
use data::ranges::in_ranges;
use refusals::refusal::Refusal;
use replies::reply::{Content, Outcome, put_held, put_status};
use text::put::Cursor;

// Whether data of a form may have the number n where another is asked for: numbers may.
fn number_fits(form: Form, asked: u16, n: u16) -> bool
    ensures { result ≡ number_fits form asked n }
{
    match form {
        Form::Numbers(_) => true,
        Form::Texts => n == asked,
    }
}

// Check 12 of what a reply carries, for the command and the number that it answers.
#[tactic(auto, unfolding(crate::specs::Writer::judge_outcome, crate::specs::Writer::content_fits))]
pub fn judge_outcome(rule: Rule, asked: u16, outcome: Outcome) -> Result<(), Refusal>
    ensures { refusal_number result ≡ judge_outcome rule asked outcome }
{
    let fits = match outcome {
        Outcome::Data(held) => {
            let content = Content::from(held);
            !rule.store
                && content.form == rule.form
                && number_fits(rule.form, asked, content.number)
                && in_ranges(rule.form, content.payload)
        }
        Outcome::Status(n) => n <= 99,
    };
    if fits { Ok(()) } else { Err(Refusal::Value) }
}

// Writes what a reply to an SN (`store`) or to an LN carries. `put_performed` of crate replies is not told which it is, and
// goes by the status; the two share what writes data and what writes a status.
#[tactic(auto, unfolding(crate::specs::Writer::outcome_text))]
pub fn put_outcome(area: &mut [u8], to: Cursor, store: bool, outcome: Outcome) -> Cursor
    requires { to.at + length (outcome_text store outcome) ≤ length area.old }
    ensures { Put area.old to (outcome_text store outcome) result area.new }
{
    match outcome {
        Outcome::Data(held) => put_held(area, to, held),
        Outcome::Status(n) => put_status(area, to, store, n),
    }
}
