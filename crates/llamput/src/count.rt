// The number of outputs that are on, for export.
ghost use Rattle.slots.specs.Entries.{Counted};

use slots::count::Count;

// Tells how many outputs of a slot's arm are on.
pub fn llamput_outputs_on(on: &[u16; 4], stations: &[u8; 4], slot: usize) -> Count
    ensures { Counted stations.now on.now slot result }
{
    slots::count::outputs_on(on, stations, slot).into()
}
