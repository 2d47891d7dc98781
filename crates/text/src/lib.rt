// Numbers as text, and the bytes of a lent area.
//
// The readers take any bytes. Each reads the field that stands at an index, byte by byte up to the SP or the end that
// follows it, and returns what it is and where it ends, or that it is malformed and where it stands. The writers write
// into a lent area (memory that the caller owns and passes by reference). Each takes and returns a cursor: the index of the next byte,
// and the exclusive or of the bytes written so far. What each reads and writes is a definition of specs/; that every
// number in range reads back as itself is proved in proofs/.
#![tactic(auto)]

pub mod field; // field.rt: where a field stands, and what reading it returns
pub mod scan; // scan.rt: the index of the first byte of a given value, and the end of a field
pub mod put; // put.rt: bytes written into a lent area
pub mod whole; // whole.rt: whole numbers of 1 to 4 digits
pub mod hundredths; // hundredths.rt: signed numbers with up to two decimals
