// The gateway with two computers: each has a port of the box, and the box serves the slice that the chooser picks.
//
// One entry, without a `requires`: serve_next. By its contract it is the pick of the crate chooser and, where a port waits, `serve`
// of the crate gateway. That demand 3 reads the slices in the order served, whichever port sent them, is proved in proofs/.
#![tactic(auto)]

pub mod next; // next.rt: the slice of the port whose turn it is, served
