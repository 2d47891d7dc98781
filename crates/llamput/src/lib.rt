// The entries of the crates gateway, slots, receiver, chooser, hosts and untyped under names with the prefix of the static
// library, in the form in which a program in C or Rust can call them, each with the contract of its entry. The crate llamput_c
// exports them: a crate is a library or an archive, and what is exported is exported from an archive.
//
// A table is a pointer to its first element. A slice is a pointer and a length, and as a result a struct of the two. The
// answers of serving and of receiving are returned as a struct of a byte and two sizes, that of serving the next of two ports
// as one of a byte and the answer of serving, how many outputs are on as one of a byte and 16 bits, that of reading a reply as
// one of two bytes and a size. The caller owns all memory, and no two areas overlap, but for the buffers of two ports, which are
// only read.
#![tactic(auto)]

pub mod setup; // setup.rt: a new box
pub mod serve; // serve.rt: a frame served
pub mod input; // input.rt: an input port set
pub mod count; // count.rt: how many outputs are on
pub mod receive; // receive.rt: slices found in a line of loose bytes
pub mod choose; // choose.rt: the port that is served next
pub mod next; // next.rt: its waiting slice, served
pub mod reading; // reading.rt: replies read, with their numbers as doubles
