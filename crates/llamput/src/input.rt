// Input calls, for export.
ghost use Rattle.std.specs.Prelude.{ℕ, List};
ghost use Rattle.tables.specs.Tables.{tables};
ghost use Rattle.model.specs.Box.{box};
ghost use Rattle.slots.specs.Entries.{InputSet};

use commands::request::Port;
use refusals::refusal::number_in;
use tables::arms::Arms;

// Puts a byte into an input port.
pub fn llamput_input(
    timers: &mut [[u16; 16]; 4],
    registers: &mut [[u16; 64]; 4],
    x: &mut [[i32; 100]; 4],
    y: &mut [[i32; 100]; 4],
    z: &mut [[i32; 100]; 4],
    w: &mut [[i32; 100]; 4],
    inputs: &mut [[u8; 32]; 4],
    outputs: &mut [[u8; 32]; 4],
    memory: &mut [[u8; 16]; 4],
    on: &mut [u16; 4],
    stations: &[u8; 4],
    slot: usize,
    port: u16,
    byte: u8,
) -> u8
    ensures { (m : List ℕ) → InputSet (box stations.now (tables timers.old registers.old x.old y.old z.old w.old inputs.old outputs.old memory.old on.old m)) slot port byte result (tables timers.new registers.new x.new y.new z.new w.new inputs.new outputs.new memory.new on.new m) }
{
    let mut arms = Arms {
        timers,
        registers,
        x,
        y,
        z,
        w,
        inputs,
        outputs,
        memory,
        on,
    };
    number_in(slots::input::input(&mut arms, stations, slot, Port(port), byte))
}
