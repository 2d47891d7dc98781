// The ports of one arm: where a signal stands among them, ports read and replaced, whole and by signal, and the number of
// outputs that are on, kept beside the output ports.
//
// Inputs, outputs and memory bits are ports of eight signals. A port of any of them is read alike. Each contract equates
// the result, and every byte of the ports at exit, with definitions of specs/.
#![tactic(auto)]

pub mod place; // place.rt: a bit of a port
pub mod signal; // signal.rt: where a signal stands among the ports
pub mod access; // access.rt: ports read and replaced
