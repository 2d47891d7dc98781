// What replies carry, as typed values, and the bodies of replies to requests that were performed or refused, written: what
// stands between a reply's station and its ETX.
#![tactic(auto)]

pub mod reply; // reply.rt: the body of a reply
