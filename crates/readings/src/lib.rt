// Readings as doubles, for a program that calculates with them (document 02, E10): what a reply carries, converted, and a
// reply read and converted. Neither has a `requires`. Which operations make each double is said in specs/Double.antt;
// that no whole number loses anything, and that zero is plus zero, is proved in proofs/.
#![tactic(auto)]

pub mod convert; // convert.rt: typed data as doubles
pub mod reply; // reply.rt: a reply read, and its data as doubles
