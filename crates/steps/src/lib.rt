// The steps of a START program (document 02, E3): a command and up to four data, each a text of 1 to 8 characters, as typed
// values, read from fields, judged, and written.
#![tactic(auto)]

pub mod texts; // texts.rt: one text
pub mod step; // step.rt: a step of one to five texts
