// HARL-U2 requests and replies: typed values read and written, at both ends of the link.
//
// Four entries, none with a `requires`: read_request, write_request, write_reply and read_reply of
// message.rt. What each returns is a definition of specs/Message.antt; that every request and every reply
// that can be written reads back as itself is proved in proofs/.
#![tactic(auto)]

pub mod message; // message.rt: the four entries
