// Replies read and data converted for programs without typed values, as those in C are (document 02, E10): what
// crates/readings does, by numbers. Neither entry has a `requires`. What they return is a definition of specs/Untyped.antt;
// that every reply has the kind that its request asks for is proved in proofs/, and so are examples by their bits.
#![tactic(auto)]

pub mod read; // read.rt: replies read, data converted
