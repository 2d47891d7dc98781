// Numbers as the data of requests and replies: the values of each kind, their ranges, and their text. A row has four
// values, every other kind one; all kinds share one reader and one writer, which go from field to field.
#![tactic(auto)]

pub mod ranges; // ranges.rt: how many values, and their range
pub mod field; // field.rt: one field, read and written
pub mod numbers; // numbers.rt: the fields of data, read and written
