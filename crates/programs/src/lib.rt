// The START programs of four arms in one memory that the caller lends (document 02, E3; docs/MEMORY.md): a step stored,
// loaded, and the memory cleared. Only the 40 bytes of the step are touched.
#![tactic(auto)]

pub mod slot; // slot.rt: the number of a slot
pub mod memory; // memory.rt: one step, and the whole memory
