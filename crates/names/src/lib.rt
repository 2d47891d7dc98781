// The names of the commands of HARL-U2 that the gateway speaks, read and written.
#![tactic(auto)]

pub mod command; // command.rt: the commands and their names
