// The bodies of requests, read and written: what stands between a request's station and its ETX.
#![tactic(auto)]

pub mod body; // body.rt: the body of a request
