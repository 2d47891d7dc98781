// Setup, for export.
ghost use Rattle.tables.specs.Tables.{tables};
ghost use Rattle.slots.specs.Entries.{SetUp};

use refusals::refusal::number_in;
use tables::arms::Arms;

// Sets up a new box in lent memory.
pub fn llamput_setup(
    timers: &mut [[u16; 16]; 4],
    registers: &mut [[u16; 64]; 4],
    x: &mut [[i32; 100]; 4],
    y: &mut [[i32; 100]; 4],
    z: &mut [[i32; 100]; 4],
    w: &mut [[i32; 100]; 4],
    inputs: &mut [[u8; 32]; 4],
    outputs: &mut [[u8; 32]; 4],
    memory: &mut [[u8; 16]; 4],
    on: &mut [u16; 4],
    programs: &mut [u8],
    stations: &mut [u8; 4],
    turn: &mut u8,
    want: &[u16; 4],
) -> u8
    ensures { SetUp want.now programs.old result stations.new turn.new (tables timers.new registers.new x.new y.new z.new w.new inputs.new outputs.new memory.new on.new programs.new) }
{
    let mut arms = Arms {
        timers,
        registers,
        x,
        y,
        z,
        w,
        inputs,
        outputs,
        memory,
        on,
    };
    number_in(slots::setup::setup(&mut arms, programs, stations, turn, *want))
}
