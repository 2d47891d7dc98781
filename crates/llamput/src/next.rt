// Serving the next of two ports, for export.
ghost use Rattle.chooser.specs.Turn.{buffers};
ghost use Rattle.tables.specs.Tables.{tables};
ghost use Rattle.model.specs.Box.{box};
ghost use Rattle.hosts.specs.Next.{NextServed};

use chooser::choose::Buffer;
use hosts::next::Next;
use tables::arms::Arms;

// Picks the port whose turn it is, and serves its waiting slice.
pub fn llamput_serve_next<'a>(
    timers: &mut [[u16; 16]; 4],
    registers: &mut [[u16; 64]; 4],
    x: &mut [[i32; 100]; 4],
    y: &mut [[i32; 100]; 4],
    z: &mut [[i32; 100]; 4],
    w: &mut [[i32; 100]; 4],
    inputs: &mut [[u8; 32]; 4],
    outputs: &mut [[u8; 32]; 4],
    memory: &mut [[u8; 16]; 4],
    on: &mut [u16; 4],
    programs: &mut [u8],
    stations: &[u8; 4],
    turn: &mut u8,
    a: &'a [u8],
    waiting_a: usize,
    b: &'a [u8],
    waiting_b: usize,
    reply: &mut [u8],
) -> Next
    ensures { NextServed (box stations.now (tables timers.old registers.old x.old y.old z.old w.old inputs.old outputs.old memory.old on.old programs.old)) turn.old (buffers a.now waiting_a b.now waiting_b) reply.old result turn.new (tables timers.new registers.new x.new y.new z.new w.new inputs.new outputs.new memory.new on.new programs.new) reply.new }
{
    let mut arms = Arms {
        timers,
        registers,
        x,
        y,
        z,
        w,
        inputs,
        outputs,
        memory,
        on,
    };
    let a = Buffer {
        bytes: a,
        waiting: waiting_a,
    };
    let b = Buffer {
        bytes: b,
        waiting: waiting_b,
    };
    hosts::next::serve_next(&mut arms, programs, stations, turn, a, b, reply).into()
}
