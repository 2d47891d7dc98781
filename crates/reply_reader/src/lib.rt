// The bodies of replies read: what stands between a reply's station and its ETX, as the typed values of the crate replies.
#![tactic(auto)]

pub mod reader; // reader.rt: the body of a reply read
