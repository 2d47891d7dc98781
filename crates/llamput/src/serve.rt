// Serving, for export.
ghost use Rattle.tables.specs.Tables.{tables};
ghost use Rattle.model.specs.Box.{box};
ghost use Rattle.gateway.specs.Entries.{Served};

use gateway::serve::has_room;
use harl::message::Sent;
use refusals::refusal::{Refusal, Refused};
use tables::arms::Arms;

// Serves a slice.
#[tactic(auto, unfolding(model::specs::Box::decide, model::specs::Box::answer, model::specs::Box::after, model::specs::Box::perform, model::specs::Box::respond, model::specs::Box::has_room))]
pub fn llamput_serve(
    timers: &mut [[u16; 16]; 4],
    registers: &mut [[u16; 64]; 4],
    x: &mut [[i32; 100]; 4],
    y: &mut [[i32; 100]; 4],
    z: &mut [[i32; 100]; 4],
    w: &mut [[i32; 100]; 4],
    inputs: &mut [[u8; 32]; 4],
    outputs: &mut [[u8; 32]; 4],
    memory: &mut [[u8; 16]; 4],
    on: &mut [u16; 4],
    programs: &mut [u8],
    stations: &[u8; 4],
    slice: &[u8],
    reply: &mut [u8],
) -> Sent
    ensures { Served (box stations.now (tables timers.old registers.old x.old y.old z.old w.old inputs.old outputs.old memory.old on.old programs.old)) slice.now reply.old result (tables timers.new registers.new x.new y.new z.new w.new inputs.new outputs.new memory.new on.new programs.new) reply.new }
{
    // Check 1 is judged here before the tables are made a struct, which takes longer than the check; `serve` compiles to no second
    // one.
    if !has_room(programs, reply) {
        return Refused::at(Refusal::Room, 0).into();
    }
    let mut arms = Arms {
        timers,
        registers,
        x,
        y,
        z,
        w,
        inputs,
        outputs,
        memory,
        on,
    };
    gateway::serve::serve(&mut arms, programs, stations, slice, reply)
}
