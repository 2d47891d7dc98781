// The refusals, each with its number.
#![tactic(auto)]

pub mod refusal; // refusal.rt: the refusals, and where a slice is wrong
