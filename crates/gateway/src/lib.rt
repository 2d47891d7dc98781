// The gateway: frames served on the lent tables of up to four arms, which the crate slots sets up.
//
// One entry, without a `requires`: serve. Its contract equates every answer with the model of the crate model. That each arm
// behaves as a lone box that gets its calls alone is proved of that model for any list of calls, and in proofs/History.antt of
// what a program sees of this entry and those of slots.
#![tactic(auto)]

pub mod serve; // serve.rt: a frame served
