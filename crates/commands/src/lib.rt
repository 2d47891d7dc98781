// The commands of HARL-U2 that the gateway speaks: the table of their data and numbers, and typed requests.
#![tactic(auto)]

pub mod table; // table.rt: the table
pub mod request; // request.rt: typed requests, and their parts
