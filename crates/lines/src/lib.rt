// Lines of the program `cell`: a slice as hexadecimal capitals, and the answer to it.
//
// The reader takes any bytes and returns how many bytes the slice has, or None where the line is no call.
// The writers write into a lent area and return the index after the last byte written. What each does is a
// definition of specs/; that what is written reads back as itself is proved in proofs/.
#![tactic(auto)]

pub mod collect; // collect.rt: a line taken in parts
pub mod reader; // reader.rt: a line read as a slice
pub mod writer; // writer.rt: the line of an answer
