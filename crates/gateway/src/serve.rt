// Serving: a slice judged, performed on the arm that it addresses, and answered.
ghost use Rattle.std.specs.Prelude.{◌≡◌, ◌≤◌, length, option_map};
ghost use Rattle.text.specs.Put.{PutAt};
ghost use Rattle.frame.specs.Frame.{read_frame, frame_of};
ghost use Rattle.replies.specs.Reply.{performed_text, refusal_text};
ghost use Rattle.bodies.specs.Position.{request_with};
ghost use Rattle.harl.specs.Message.{judge_request};
ghost use Rattle.tables.specs.Tables.{Performed};
ghost use Rattle.tables.specs.Arms.{tables_of, SameTables};
ghost use Rattle.model.specs.Box.{box, has_room};
ghost use Rattle.gateway.specs.Entries.{Served};
ghost use Rattle.gateway.specs.Serving.{BodyServed, found_in, sent_of};

use bodies::body::{Parsed, RefusedBody, read_body};
use commands::request::NO_STEP;
use frame::reader::read_frame;
use frame::writer::{close_frame, open_frame};
use harl::message::Sent;
use programs::memory::{Programs, SIZE};
use programs::slot::Slot;
use refusals::refusal::{Refusal, Refused};
use replies::reply::{Outcome, number_in, put_performed, put_refusal};
use steps::step::Step;
use tables::arms::Arms;

// The first slot that has a station; 0 is none's. For speed (docs/SPEED.md) the tests go from slot 3 down, so that the first slot
// is kept, and none of them returns, so that each compiles to a conditional move; 4 is no slot's number.
#[tactic(auto, unfolding(model::specs::Box::slot_of, model::specs::Box::scan))]
fn find_slot(stations: &[u8; 4], station: u8) -> Option<Slot>
    ensures { option_map (λ s. s.index) result ≡ found_in stations.now station }
{
    if station == 0 {
        return None;
    }
    let mut slot = 4;
    if stations[3] == station {
        slot = 3;
    }
    if stations[2] == station {
        slot = 2;
    }
    if stations[1] == station {
        slot = 1;
    }
    if stations[0] == station {
        slot = 0;
    }
    if slot < 4 {
        return Some(Slot { index: slot });
    }
    None
}

// Check 1: whether the lent memory has its size, and the reply area room for a reply.
#[tactic(auto, unfolding(model::specs::Box::has_room))]
pub fn has_room(programs: &[u8], reply: &[u8]) -> bool
    ensures { result ≡ has_room (length programs.now) (length reply.now) }
{
    if reply.len() < 64 {
        return false;
    }
    programs.len() == SIZE
}

// Writes the reply to a request that was performed. Here as in every function below, the room for a reply is a clause: of a type
// that held it, each would have to promise that it is still the caller's area.
#[tactic(auto, using(frame::proofs::Writing::opening_length, text::proofs::Digits::shortest_short, replies::proofs::Texts::performed_length))]
fn put_reply(reply: &mut [u8], station: u8, outcome: Outcome) -> usize
    requires { 64 ≤ length reply.old }
    ensures { PutAt reply.old 0 (frame_of station (performed_text outcome)) result reply.new }
{
    let at = open_frame(reply, station);
    let end = put_performed(reply, at, outcome);
    close_frame(reply, end)
}

// Writes the reply to a refused request, by its number, which serving returns, too.
#[tactic(auto, using(frame::proofs::Writing::opening_length, text::proofs::Digits::shortest_short, replies::proofs::Texts::refusal_length))]
fn put_refused(reply: &mut [u8], station: u8, number: u8, store: bool) -> usize
    requires { 64 ≤ length reply.old }
    ensures { PutAt reply.old 0 (frame_of station (refusal_text number store)) result reply.new }
{
    let at = open_frame(reply, station);
    let end = put_refusal(reply, at, number, store);
    close_frame(reply, end)
}

// Performs an accepted body on the tables of slot's arm. A step is stored from where its texts were read.
#[tactic(auto, unfolding(tables::specs::Tables::stored))]
fn perform_parsed(
    arms: &mut Arms<'_>,
    programs: &mut Programs<'_>,
    slot: Slot,
    step: Step,
    parsed: Parsed,
) -> Outcome
    requires { judge_request (request_with step parsed) ≡ 0 }
    ensures performed { Performed slot.index (request_with step parsed) (tables_of arms.old programs.old.bytes.now) (tables_of arms.new programs.new.bytes.now) result }
    ensures same_tables { SameTables arms.old arms.new }
    ensures same_memory { programs.new.bytes.ghost_name ≡ programs.old.bytes.ghost_name }
{
    match parsed {
        Parsed::Request(request) => arms.perform(programs, slot, request),
        Parsed::Step(n) => {
            programs.store(slot, n as u8, step);
            Outcome::Status(0)
        }
    }
}

// Serves the body of a slice that is addressed to slot's arm: checks 9 to 12, then the request.
fn serve_body(
    arms: &mut Arms<'_>,
    programs: &mut Programs<'_>,
    slot: Slot,
    station: u8,
    slice: &[u8],
    body: &[u8],
    reply: &mut [u8],
) -> Sent
    requires room { 64 ≤ length reply.old }
    requires slice_value { ((read_frame slice.now).number ≡ 0) × (body.now ≡ (read_frame slice.now).body) }
    ensures served { BodyServed slot.index station slice.now (tables_of arms.old programs.old.bytes.now) reply.old result (tables_of arms.new programs.new.bytes.now) reply.new }
    ensures same_tables { SameTables arms.old arms.new }
    ensures same_memory { programs.new.bytes.ghost_name ≡ programs.old.bytes.ghost_name }
{
    let mut step = NO_STEP;
    match read_body(slice, body, &mut step) {
        Ok(parsed) => {
            let outcome = perform_parsed(arms, programs, slot, step, parsed);
            let length = put_reply(reply, station, outcome);
            Sent {
                number: number_in(outcome),
                length,
                position: 0,
            }
        }
        Err(RefusedBody { refused, store }) => {
            let number = refused.refusal.number();
            let length = put_refused(reply, station, number, store);
            Sent {
                number,
                length,
                position: refused.position,
            }
        }
    }
}

// Serves a slice that passed check 1: checks 2 to 12, in their order.
#[tactic(auto, unfolding(model::specs::Box::decide, model::specs::Box::answer, model::specs::Box::after, model::specs::Box::perform, model::specs::Box::respond, model::specs::Box::has_room))]
fn serve_slice(
    arms: &mut Arms<'_>,
    programs: &mut Programs<'_>,
    stations: &[u8; 4],
    slice: &[u8],
    reply: &mut [u8],
) -> Sent
    requires { 64 ≤ length reply.old }
    ensures served { Served (box stations.now (tables_of arms.old programs.old.bytes.now)) slice.now reply.old result (tables_of arms.new programs.new.bytes.now) reply.new }
    ensures same_tables { SameTables arms.old arms.new }
    ensures same_memory { programs.new.bytes.ghost_name ≡ programs.old.bytes.ghost_name }
{
    let frame = match read_frame(slice) {
        Ok(frame) => frame,
        Err(refused) => return refused.into(),
    };
    let Some(slot) = find_slot(stations, frame.station) else {
        return Refused::at(Refusal::Absent, 0).into();
    };
    serve_body(
        arms,
        programs,
        slot,
        frame.station,
        slice,
        frame.body,
        reply,
    )
}

// An answer without its length: the number and the position.
#[derive(Clone, Copy)]
pub struct Told {
    pub number: u8,
    pub position: usize,
}

// Serves a slice that passed check 1, for two callers, here and in the crate hosts. Having two, it is compiled apart from them: so the slice is taken
// anew, and the length told apart, which keeps both from being copied through memory on the way (docs/SPEED.md).
pub fn serve_told(
    arms: &mut Arms<'_>,
    programs: &mut Programs<'_>,
    stations: &[u8; 4],
    slice: &[u8],
    reply: &mut [u8],
    count: &mut usize,
) -> Told
    requires { 64 ≤ length reply.old }
    ensures served { Served (box stations.now (tables_of arms.old programs.old.bytes.now)) slice.now reply.old (sent_of result count.new) (tables_of arms.new programs.new.bytes.now) reply.new }
    ensures same_tables { SameTables arms.old arms.new }
    ensures same_memory { programs.new.bytes.ghost_name ≡ programs.old.bytes.ghost_name }
{
    let n = slice.len();
    let sent = serve_slice(arms, programs, stations, &slice[..n], reply);
    *count = sent.length;
    Told {
        number: sent.number,
        position: sent.position,
    }
}

// Serves a slice: checks 1 to 12, in their order. With a reply, its bytes stand at the front of the reply
// area; with none, the length is 0 and the area untouched. A refusal changes no table.
#[tactic(auto, unfolding(model::specs::Box::decide, model::specs::Box::answer, model::specs::Box::after, model::specs::Box::perform, model::specs::Box::respond, model::specs::Box::has_room))]
pub fn serve(
    arms: &mut Arms<'_>,
    programs: &mut [u8],
    stations: &[u8; 4],
    slice: &[u8],
    reply: &mut [u8],
) -> Sent
    ensures served { Served (box stations.now (tables_of arms.old programs.old)) slice.now reply.old result (tables_of arms.new programs.new) reply.new }
    ensures same_tables { SameTables arms.old arms.new }
{
    if !has_room(programs, reply) {
        return Refused::at(Refusal::Room, 0).into();
    }
    let mut lent = Programs { bytes: programs };
    let mut length = 0;
    let told = serve_told(arms, &mut lent, stations, slice, reply, &mut length);
    Sent {
        number: told.number,
        length,
        position: told.position,
    }
}
