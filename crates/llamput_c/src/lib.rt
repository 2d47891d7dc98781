// The gateway as a static library, for programs in C or Rust: each function of the crate llamput exported under its own name, with
// its contract. include/llamput.h declares them.
#![tactic(auto)]

ghost use Rattle.tables.specs.Tables.{tables};
ghost use Rattle.slots.specs.Entries.{SetUp, InputSet, Counted};
ghost use Rattle.model.specs.Box.{box};
ghost use Rattle.gateway.specs.Entries.{Served};
ghost use Rattle.std.specs.Prelude.{ℕ, List, length, ◌≡◌};
ghost use Rattle.receiver.specs.Receive.{received, Received};
ghost use Rattle.chooser.specs.Turn.{buffers, pick};
ghost use Rattle.llamput.specs.Choice.{Chosen};
ghost use Rattle.hosts.specs.Next.{NextServed};
ghost use Rattle.untyped.specs.Untyped.{read_coded, numbers_of, doubles_for};
ghost use Rattle.llamput.specs.Reading.{Told};

use harl::message::Sent;
use hosts::next::Next;
use llamput::choose::Choice;
use llamput::reading::Reply;
use receiver::receive::Reception;
use slots::count::Count;

// Sets up a new box in lent memory.
#[unsafe(no_mangle)]
pub extern "C" fn llamput_setup(
    timers: &mut [[u16; 16]; 4],
    registers: &mut [[u16; 64]; 4],
    x: &mut [[i32; 100]; 4],
    y: &mut [[i32; 100]; 4],
    z: &mut [[i32; 100]; 4],
    w: &mut [[i32; 100]; 4],
    inputs: &mut [[u8; 32]; 4],
    outputs: &mut [[u8; 32]; 4],
    memory: &mut [[u8; 16]; 4],
    on: &mut [u16; 4],
    programs: &mut [u8],
    stations: &mut [u8; 4],
    turn: &mut u8,
    want: &[u16; 4],
) -> u8
    ensures { SetUp want.now programs.old result stations.new turn.new (tables timers.new registers.new x.new y.new z.new w.new inputs.new outputs.new memory.new on.new programs.new) }
{
    llamput::setup::llamput_setup(
        timers, registers, x, y, z, w, inputs, outputs, memory, on, programs, stations, turn, want,
    )
}

// Serves a slice.
#[unsafe(no_mangle)]
pub extern "C" fn llamput_serve(
    timers: &mut [[u16; 16]; 4],
    registers: &mut [[u16; 64]; 4],
    x: &mut [[i32; 100]; 4],
    y: &mut [[i32; 100]; 4],
    z: &mut [[i32; 100]; 4],
    w: &mut [[i32; 100]; 4],
    inputs: &mut [[u8; 32]; 4],
    outputs: &mut [[u8; 32]; 4],
    memory: &mut [[u8; 16]; 4],
    on: &mut [u16; 4],
    programs: &mut [u8],
    stations: &[u8; 4],
    slice: &[u8],
    reply: &mut [u8],
) -> Sent
    ensures { Served (box stations.now (tables timers.old registers.old x.old y.old z.old w.old inputs.old outputs.old memory.old on.old programs.old)) slice.now reply.old result (tables timers.new registers.new x.new y.new z.new w.new inputs.new outputs.new memory.new on.new programs.new) reply.new }
{
    llamput::serve::llamput_serve(
        timers, registers, x, y, z, w, inputs, outputs, memory, on, programs, stations, slice,
        reply,
    )
}

// Puts a byte into an input port.
#[unsafe(no_mangle)]
pub extern "C" fn llamput_input(
    timers: &mut [[u16; 16]; 4],
    registers: &mut [[u16; 64]; 4],
    x: &mut [[i32; 100]; 4],
    y: &mut [[i32; 100]; 4],
    z: &mut [[i32; 100]; 4],
    w: &mut [[i32; 100]; 4],
    inputs: &mut [[u8; 32]; 4],
    outputs: &mut [[u8; 32]; 4],
    memory: &mut [[u8; 16]; 4],
    on: &mut [u16; 4],
    stations: &[u8; 4],
    slot: usize,
    port: u16,
    byte: u8,
) -> u8
    ensures { (m : List ℕ) → InputSet (box stations.now (tables timers.old registers.old x.old y.old z.old w.old inputs.old outputs.old memory.old on.old m)) slot port byte result (tables timers.new registers.new x.new y.new z.new w.new inputs.new outputs.new memory.new on.new m) }
{
    llamput::input::llamput_input(
        timers, registers, x, y, z, w, inputs, outputs, memory, on, stations, slot, port, byte,
    )
}

// Tells how many outputs of a slot's arm are on.
#[unsafe(no_mangle)]
pub extern "C" fn llamput_outputs_on(on: &[u16; 4], stations: &[u8; 4], slot: usize) -> Count
    ensures { Counted stations.now on.now slot result }
{
    llamput::count::llamput_outputs_on(on, stations, slot)
}

// Takes bytes of what has arrived until a slice is finished or none is left.
#[unsafe(no_mangle)]
pub extern "C" fn llamput_receive(
    held: &mut [u8; 255],
    count: &mut u8,
    arrived: &[u8],
    area: &mut [u8],
) -> Reception
    ensures { Received (received held.old count.old arrived.now (length area.old)) area.old result held.new count.new area.new }
{
    llamput::receive::llamput_receive(held, count, arrived, area)
}

// Picks the port that is served next.
#[unsafe(no_mangle)]
pub extern "C" fn llamput_choose<'a>(
    turn: &mut u8,
    a: &'a [u8],
    waiting_a: usize,
    b: &'a [u8],
    waiting_b: usize,
) -> Choice
    ensures { Chosen (pick (buffers a.now waiting_a b.now waiting_b) turn.old) result turn.new }
{
    llamput::choose::llamput_choose(turn, a, waiting_a, b, waiting_b)
}

// Picks the port whose turn it is, and serves its waiting slice.
#[unsafe(no_mangle)]
pub extern "C" fn llamput_serve_next<'a>(
    timers: &mut [[u16; 16]; 4],
    registers: &mut [[u16; 64]; 4],
    x: &mut [[i32; 100]; 4],
    y: &mut [[i32; 100]; 4],
    z: &mut [[i32; 100]; 4],
    w: &mut [[i32; 100]; 4],
    inputs: &mut [[u8; 32]; 4],
    outputs: &mut [[u8; 32]; 4],
    memory: &mut [[u8; 16]; 4],
    on: &mut [u16; 4],
    programs: &mut [u8],
    stations: &[u8; 4],
    turn: &mut u8,
    a: &'a [u8],
    waiting_a: usize,
    b: &'a [u8],
    waiting_b: usize,
    reply: &mut [u8],
) -> Next
    ensures { NextServed (box stations.now (tables timers.old registers.old x.old y.old z.old w.old inputs.old outputs.old memory.old on.old programs.old)) turn.old (buffers a.now waiting_a b.now waiting_b) reply.old result turn.new (tables timers.new registers.new x.new y.new z.new w.new inputs.new outputs.new memory.new on.new programs.new) reply.new }
{
    llamput::next::llamput_serve_next(
        timers, registers, x, y, z, w, inputs, outputs, memory, on, programs, stations, turn, a,
        waiting_a, b, waiting_b, reply,
    )
}

// Reads the reply to the request of a command, a number and data.
#[unsafe(no_mangle)]
pub extern "C" fn llamput_read_converted(
    slice: &[u8],
    station: u8,
    command: u8,
    number: u16,
    values: &[i32; 4],
    texts: &[u64; 5],
    kind: &mut u8,
    doubles: &mut [f64; 4],
    step: &mut [u64; 5],
) -> Reply
    ensures { Told (numbers_of (read_coded slice.now station command number values.now texts.now)) result kind.new doubles.new step.new }
{
    llamput::reading::llamput_read_converted(
        slice, station, command, number, values, texts, kind, doubles, step,
    )
}

// Converts data of a kind.
#[unsafe(no_mangle)]
pub extern "C" fn llamput_convert(kind: u8, values: &[i32; 4], doubles: &mut [f64; 4])
    ensures { doubles.new ≡ doubles_for kind values.now }
{
    llamput::reading::llamput_convert(kind, values, doubles);
}
