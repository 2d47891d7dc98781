// The data of requests and replies, which are numbers of a kind or the texts of a step: read, written, and judged with the
// number of a request.
#![tactic(auto)]

pub mod data; // data.rt: data read and written
pub mod ranges; // ranges.rt: the ranges of numbers and data
