// Which of two computers is served next: each has a port of the box, A or B, and lends a buffer with one waiting slice.
//
// The turn, a byte of the box, keeps the port that was served last. Every value of it has a meaning, and every pick is settled
// by definitions of specs/. That a waiting port is served after at most one service of the other is proved in proofs/.
#![tactic(auto)]

pub mod choose; // choose.rt: the entry
