// The gateway on a line of loose bytes: the slices that the receiver finds in what has arrived are served in turn.
//
// The caller lends the tables, the receiver's state and an area for the replies, which are the caller's to write. What a call
// does is a definition of specs/; that the replies are those to the slices of the whole line, in whatever parts it arrives, and
// that demand 3 reads those slices, is proved in proofs/.
#![tactic(auto)]

pub mod arrived; // arrived.rt: what has arrived, received and served
