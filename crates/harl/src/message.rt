// The four entries: a request read and written, a reply written and read. None has a `requires`. A refused
// reader hands back its refusal and position alone; a refused writer leaves the area untouched.
ghost use Rattle.std.specs.Prelude.{◌≡◌, length};
ghost use Rattle.refusals.specs.Refusal.{number_of, refusal_number};
ghost use Rattle.harl.specs.Message.{judge_station, judge_asked, asked_values, read_request, write_request, write_reply, unsent, sent_by, Wrote, answered_values, read_reply};

use bodies::body::{put_body, read_body, request_with};
use commands::request::{NO_STEP, Parts, Request};
use commands::table::rule_of;
use data::ranges::judge_parts;
use frame::reader::read_frame;
use frame::writer::{close_frame, open_frame};
use refusals::refusal::{Refusal, Refused};
use replies::reply::Outcome;
use reply_reader::reader::read_outcome;
use reply_writer::writer::{judge_outcome, put_outcome};

// A request, and the station that it is for.
#[derive(Clone, Copy)]
pub struct Asked {
    pub station: u8,
    pub request: Request,
}

// What serving returns: the number of the refusal, or 0; the length of the reply; and for a refused slice the position where it
// is wrong, 0 where there is none to tell. A refusal may have a reply, so that this is no Result. C is given it as it stands.
#[repr(C)]
#[derive(Clone, Copy)]
pub struct Sent {
    pub number: u8,
    pub length: usize,
    pub position: usize,
}

// A refusal without a reply, by any number: a `Refusal` would ask more of callers.
pub fn refusal(number: u8, position: usize) -> Sent
    ensures { result ≡ unsent number position }
{
    Sent {
        number,
        length: 0,
        position,
    }
}

impl From<Refused> for Sent {
    ghost from_gives = { λ refused sent. sent ≡ unsent (number_of refused.refusal) refused.position };

    fn from(refused: Refused) -> Sent {
        refusal(refused.refusal.number(), refused.position)
    }
}

// Check 7 of the station that a request is for.
pub fn judge_station(station: u8) -> Result<(), Refusal>
    ensures { refusal_number result ≡ judge_station station }
{
    if station == 0 || 99 < station {
        return Err(Refusal::Station);
    }
    Ok(())
}

// Checks 7, 11 and 12 of a typed request, in that order.
#[tactic(auto, unfolding(crate::specs::Message::judge_asked))]
fn judge_asked(asked: Asked) -> Result<(), Refusal>
    ensures { refusal_number result ≡ judge_asked asked.station asked.request }
{
    judge_station(asked.station)?;
    let parts = Parts::from(asked.request);
    judge_parts(rule_of(parts.command), parts.number, parts.payload)
}

// Reads a request: checks 2 to 7, then 9 to 12.
#[tactic(auto, unfolding(crate::specs::Message::read_request))]
pub fn read_request(slice: &[u8]) -> Result<Asked, Refused>
    ensures { asked_values result ≡ read_request slice.now }
{
    let frame = read_frame(slice)?;
    let mut step = NO_STEP;
    let parsed = read_body(slice, frame.body, &mut step)?;
    Ok(Asked {
        station: frame.station,
        request: request_with(step, parsed),
    })
}

// Writes a request, and returns the length of its frame: checks 1, 7, 11 and 12.
#[tactic(auto, using(frame::proofs::Writing::opening_length, text::proofs::Digits::shortest_short, bodies::proofs::Bodies::body_length), unfolding(crate::specs::Message::write_request))]
pub fn write_request(area: &mut [u8], asked: Asked) -> Result<usize, Refusal>
    ensures { Wrote (write_request (length area.old) asked.station asked.request) area.old (sent_by result) area.new }
{
    if area.len() < 64 {
        return Err(Refusal::Room);
    }
    judge_asked(asked)?;
    let at = open_frame(area, asked.station);
    let end = put_body(area, at, asked.request.into());
    Ok(close_frame(area, end))
}

// Writes the reply to a request, and returns the length of its frame: checks 1, 7, 11 and 12 of the request, then 12 of what
// the reply carries.
#[tactic(auto, using(frame::proofs::Writing::opening_length, text::proofs::Digits::shortest_short, reply_writer::proofs::Texts::outcome_length), unfolding(crate::specs::Message::write_reply, crate::specs::Message::judge_reply))]
pub fn write_reply(area: &mut [u8], asked: Asked, outcome: Outcome) -> Result<usize, Refusal>
    ensures { Wrote (write_reply (length area.old) asked.station asked.request outcome) area.old (sent_by result) area.new }
{
    if area.len() < 64 {
        return Err(Refusal::Room);
    }
    judge_asked(asked)?;
    let parts = Parts::from(asked.request);
    let rule = rule_of(parts.command);
    judge_outcome(rule, parts.number, outcome)?;
    let at = open_frame(area, asked.station);
    let past = put_outcome(area, at, rule.store, outcome);
    Ok(close_frame(area, past))
}

// Reads the reply to a request: checks 7, 11 and 12 of the request, 2 to 7 of the slice, then 15.
#[tactic(auto, unfolding(crate::specs::Message::read_reply))]
pub fn read_reply(slice: &[u8], asked: Asked) -> Result<Outcome, Refused>
    ensures { answered_values result ≡ read_reply slice.now asked.station asked.request }
{
    judge_asked(asked)?;
    let frame = read_frame(slice)?;
    if frame.station != asked.station {
        return Err(Refusal::Reply.into());
    }
    let parts = Parts::from(asked.request);
    let carried = read_outcome(rule_of(parts.command), parts.number, frame.body);
    carried.ok_or(Refusal::Reply.into())
}
