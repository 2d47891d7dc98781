// Frames found in a line of loose bytes: a receiver takes what has arrived and hands out slices for serving.
//
// The caller keeps the state, the bytes held of a frame that is not finished and their count; a count of 0 is fresh. Every
// state has a meaning, and every call is settled by definitions of specs/. That the slices are those of the whole line however
// the arrivals were cut, and that a sound frame is found, is proved in proofs/.
#![tactic(auto)]

pub mod receive; // receive.rt: the entry, and what one byte does
