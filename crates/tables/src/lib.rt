// The tables of four arms, lent by the caller, and what one typed request does to one arm.
//
// One table for each kind, and for each field of a row, its outer index the slot and its inner index the number:
// 16 timers, 64 registers, 100 rows of X, Y, Z and W, 32 input, 32 output and 16 memory ports; for each slot the number of
// its outputs that are on; and the memory of the START programs (crate programs). Each contract equates the result and every
// table at exit with definitions of specs/.
#![tactic(auto)]

pub mod arms; // arms.rt: the lent tables
pub mod perform; // perform.rt: one request on one arm
