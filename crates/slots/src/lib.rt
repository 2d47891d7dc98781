// The calls that name slots: setup, input calls, and the question how many outputs are on, on the lent tables of up to four
// arms.
//
// A slot (0 to 3) is a place for one arm; a slot whose station is 0 is unfitted. A station (1 to 99) is the
// number that a frame addresses an arm by. A box is the four stations with their tables. Lent means passed by
// reference and owned by the caller.
//
// Three entries, none with a `requires`: setup, input and outputs_on. Each contract equates every answer with the model of the
// crate model.
#![tactic(auto)]

pub mod setup; // setup.rt: a new box in lent memory
pub mod slot; // slot.rt: whether a slot is fitted
pub mod input; // input.rt: an input port set
pub mod count; // count.rt: how many outputs are on
