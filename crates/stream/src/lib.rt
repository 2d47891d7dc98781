// What the program `cell` does between reading and writing: its input taken, its output made.
//
// The caller lends the tables, and a line and an output in fixed memory. What waits in the output is the
// caller's to write. A line that has ended is answered by the crate answers. What each function does is a
// definition of specs/; that the answers are those of the input's lines, however it is cut, is proved in proofs/.
#![tactic(auto)]

pub mod buffers; // buffers.rt: the line and the output as a program owns them
pub mod input; // input.rt: a block of input taken, and the input's end
