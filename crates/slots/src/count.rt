// The number of outputs that are on, asked by slot.
ghost use Rattle.std.specs.Prelude.{◌≡◌};
ghost use Rattle.slots.specs.Entries.{Counted, counted};

use crate::slot::fitted_slot;
use refusals::refusal::Refusal;

// The refusal number, or 0, and the number asked for, as C is given them.
#[repr(C)]
#[derive(Clone, Copy)]
pub struct Count {
    pub number: u8,
    pub count: u16,
}

impl From<Result<u16, Refusal>> for Count {
    ghost from_gives = { λ answer count. count ≡ counted answer };

    fn from(answer: Result<u16, Refusal>) -> Count {
        match answer {
            Ok(count) => Count { number: 0, count },
            Err(refusal) => Count {
                number: refusal.number(),
                count: 0,
            },
        }
    }
}

// Tells how many outputs of slot's arm are on: the number that is kept, so that no port is read. Refused with 14 INPUT: a slot
// above 3 or unfitted.
#[tactic(auto, unfolding(model::specs::Box::decide, model::specs::Box::respond, model::specs::Box::answer))]
pub fn outputs_on(on: &[u16; 4], stations: &[u8; 4], slot: usize) -> Result<u16, Refusal>
    ensures { Counted stations.now on.now slot (counted result) }
{
    let slot = fitted_slot(stations, slot).ok_or(Refusal::Input)?;
    Ok(on[slot.index])
}
