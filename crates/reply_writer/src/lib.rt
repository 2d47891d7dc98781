// Typed replies judged, and their bodies written: what stands between a reply's station and its ETX.
#![tactic(auto)]

pub mod writer; // writer.rt: what a typed reply carries, judged and written
