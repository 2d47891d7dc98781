// Input calls: a byte put into an input port, as the arm's wiring does.
ghost use Rattle.std.specs.Prelude.{ℕ, List};
ghost use Rattle.refusals.specs.Refusal.{refusal_number};
ghost use Rattle.tables.specs.Arms.{tables_of, SameTables};
ghost use Rattle.model.specs.Box.{box};
ghost use Rattle.slots.specs.Entries.{InputSet};

use crate::slot::fitted_slot;
use commands::request::Port;
use refusals::refusal::Refusal;
use tables::arms::Arms;

// Puts a byte into an input port of slot's arm. Refused with 14 INPUT: a slot above 3 or unfitted, or a port above 31. The
// memory of the START programs is not lent: whatever it holds, it stays.
#[tactic(auto, unfolding(model::specs::Box::decide, model::specs::Box::perform, model::specs::Box::respond, model::specs::Box::after, model::specs::Box::answer))]
pub fn input(
    arms: &mut Arms<'_>,
    stations: &[u8; 4],
    slot: usize,
    port: Port,
    byte: u8,
) -> Result<(), Refusal>
    ensures set { (m : List ℕ) → InputSet (box stations.now (tables_of arms.old m)) slot port.0 byte (refusal_number result) (tables_of arms.new m) }
    ensures same_tables { SameTables arms.old arms.new }
{
    let slot = fitted_slot(stations, slot).ok_or(Refusal::Input)?;
    if 31 < port.0 {
        return Err(Refusal::Input);
    }
    arms.inputs[slot.index][port.0 as usize] = byte;
    Ok(())
}
