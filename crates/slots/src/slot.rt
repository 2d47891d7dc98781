// The slots of a box.
ghost use Rattle.std.specs.Prelude.{◌≡◌, is_some, IfSome};
ghost use Rattle.model.specs.Box.{is_fitted};

use programs::slot::Slot;

// The slot of a number, where there is one and it has an arm.
#[tactic(auto, unfolding(model::specs::Box::is_fitted))]
pub fn fitted_slot(stations: &[u8; 4], slot: usize) -> Option<Slot>
    ensures some { is_some result ≡ is_fitted stations.now slot }
    ensures index { IfSome result (λ s. s.index ≡ slot) }
{
    if 3 < slot || stations[slot] == 0 {
        return None;
    }
    Some(Slot { index: slot })
}
