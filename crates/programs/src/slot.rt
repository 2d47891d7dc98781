// The slots of a box: a slot is a place for one arm.
ghost use Rattle.std.specs.Prelude.{◌<◌};

// The number of a slot, 0 to 3.
#[derive(Clone, Copy)]
pub struct Slot {
    pub index: usize,
    ghost in_box: { index < 4 },
}
