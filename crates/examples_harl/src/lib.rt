// Examples of requests and replies: what is read and written is printed, a line for each.
#![tactic(auto)]

mod cases; // cases.rt: typed requests
mod typed_steps; // typed_steps.rt: typed steps
mod words; // words.rt: typed values in words
pub mod requests; // requests.rt: requests read and written
pub mod answers; // answers.rt: replies written and read
