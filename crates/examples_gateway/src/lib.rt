// Examples of setup, serving and input calls: each call is made on the lent tables, and a line says what it
// answered and whether any table of any arm changed.
#![tactic(auto)]

mod script; // script.rt: what a line of the script asks for
mod memory; // memory.rt: the memory of START programs shown, written and compared
mod ranges; // ranges.rt: a row of the table of ranges
pub mod calls; // calls.rt: one call of each kind
