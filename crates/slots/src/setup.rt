// Setup: a new box in memory that the caller lends.
ghost use Rattle.std.specs.Prelude.{ℕ, ◌≡◌, List, length};
ghost use Rattle.refusals.specs.Refusal.{refusal_number};
ghost use Rattle.tables.specs.Tables.{zeros};
ghost use Rattle.tables.specs.Arms.{tables_of, SameTables};
ghost use Rattle.model.specs.Setup.{too_high, repeats, setup_refusal};
ghost use Rattle.slots.specs.Entries.{SetUp};

use chooser::choose::FRESH;
use programs::memory::SIZE;
use refusals::refusal::Refusal;
use tables::arms::Arms;

// Whether some nonzero station is given twice.
#[tactic(auto, unfolding(model::specs::Setup::repeats, model::specs::Setup::contains))]
fn is_repeating(want: [u16; 4]) -> bool
    ensures { result ≡ repeats want }
{
    // By its index: each station is compared with those behind it.
    for i in 0..4 {
        let s = want[i];
        if s != 0 && want[i + 1..].contains(&s) {
            return true;
        }
    }
    false
}

// Whether some station is above 99.
#[tactic(auto, unfolding(model::specs::Setup::too_high))]
fn is_too_high(want: [u16; 4]) -> bool
    ensures { result ≡ too_high want }
{
    want.iter().any(|s| 99 < *s)
}

// Check 1 of the lent memory and check 13 of four station numbers.
#[tactic(auto, unfolding(model::specs::Setup::setup_refusal, model::specs::Setup::setup_number))]
fn judge_setup(programs: &[u8], want: [u16; 4]) -> Result<(), Refusal>
    ensures { refusal_number result ≡ setup_refusal want programs.now }
{
    if programs.len() != SIZE {
        return Err(Refusal::Room);
    }
    if is_too_high(want) || is_repeating(want) {
        return Err(Refusal::Setup);
    }
    Ok(())
}

// Sets every row, register, timer and port to zero, and the number of outputs that are on.
#[tactic(auto, unfolding(tables::specs::Tables::zeros))]
fn clear(arms: &mut Arms<'_>)
    ensures zeros { (m : List ℕ) → tables_of arms.new m ≡ zeros m }
    ensures same_tables { SameTables arms.old arms.new }
{
    *arms.timers = [[0; 16]; 4];
    *arms.registers = [[0; 64]; 4];
    *arms.x = [[0; 100]; 4];
    *arms.y = [[0; 100]; 4];
    *arms.z = [[0; 100]; 4];
    *arms.w = [[0; 100]; 4];
    *arms.inputs = [[0; 32]; 4];
    *arms.outputs = [[0; 32]; 4];
    *arms.memory = [[0; 16]; 4];
    *arms.on = [0; 4];
}

// Sets up a new box, whatever the memory held: every table zero, the START programs cleared, each slot with its station, or
// unfitted where it is 0, and no port served last. Refused with 1 ROOM or 13 SETUP: no slot is fitted, and the START programs
// are untouched.
#[tactic(auto, using(model::proofs::Setups::accepted_small, model::proofs::Setups::refused_stations, model::proofs::Setups::refused_tables))]
pub fn setup(
    arms: &mut Arms<'_>,
    programs: &mut [u8],
    stations: &mut [u8; 4],
    turn: &mut u8,
    want: [u16; 4],
) -> Result<(), Refusal>
    ensures set_up { SetUp want programs.old (refusal_number result) stations.new turn.new (tables_of arms.new programs.new) }
    ensures same_tables { SameTables arms.old arms.new }
{
    clear(arms);
    *turn = FRESH;
    *stations = [0; 4];
    judge_setup(programs, want)?;
    programs::memory::clear(programs);
    // Each by itself: the closure of a `map` is not told that the stations are judged.
    *stations = [want[0] as u8, want[1] as u8, want[2] as u8, want[3] as u8];
    Ok(())
}
