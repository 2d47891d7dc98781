// One line of the program `cell` answered: the call that it is served, and the line of its answer put.
//
// The caller lends the tables and the output. What a line does to the box, and the line that answers it, are
// definitions of specs/.
#![tactic(auto)]

pub mod answer; // answer.rt: one line answered
