// HARL-U2 frames: STX, station, SP, body, ETX, LRC.
//
// The reader judges a slice of any bytes and hands the body back as a part of it. The writer opens a frame
// in a lent area (memory that the caller owns and passes by reference), and closes it after the body that its
// caller wrote there. That the frame of a station from 1 to 99 and a body of bytes 20h to 7Eh reads back as
// itself, where it has 6 to 255 bytes, is proved in proofs/.
#![tactic(auto)]

pub mod reader; // reader.rt: checks 2 to 7 of a slice
pub mod writer; // writer.rt: a frame written into a lent area

// The first byte of a frame.
pub const STX: u8 = 0x02;

// The last byte but one.
pub const ETX: u8 = 0x03;
