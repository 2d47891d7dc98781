// The tables of a box as a program owns them, which keeps them itself and lends them to each call.
#![tactic(auto)]

pub mod arrays; // arrays.rt: the tables, filled and lent
