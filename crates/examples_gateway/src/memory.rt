// The memory of START programs: what stands in it, bytes written into it as no call does, and whether a call touched it.
use print::Bytes;
use std::fmt;

// The byte that fills a lent memory before a call.
pub const FILL: u8 = 7;

// Whether every byte is b.
fn is_filled(p: &[u8], b: u8) -> bool {
    p.iter().all(|c| *c == b)
}

// Every byte that is not 0, a run of them after its place.
#[derive(Clone, Copy)]
pub struct Memory<'a>(pub &'a [u8]);

impl fmt::Display for Memory<'_> {
    fn fmt<W: fmt::Write>(&self, f: &mut fmt::Formatter<W>) -> fmt::Result {
        write!(f, "memory")?;
        if is_filled(self.0, 0) {
            write!(f, " zero")?;
        }
        let mut before = 0;
        for (k, b) in self.0.iter().enumerate() {
            if before == 0 && *b != 0 {
                write!(f, " @{k}")?;
            }
            if *b != 0 {
                write!(f, " {}", Bytes(&[*b]))?;
            }
            before = *b;
        }
        Ok(())
    }
}

// What a call left in a lent memory that was filled.
#[derive(Clone, Copy)]
pub struct Lent<'a>(pub &'a [u8]);

impl fmt::Display for Lent<'_> {
    fn fmt<W: fmt::Write>(&self, f: &mut fmt::Formatter<W>) -> fmt::Result {
        if is_filled(self.0, FILL) {
            write!(f, ", memory untouched")
        } else if is_filled(self.0, 0) {
            write!(f, ", memory zero")
        } else {
            write!(f, ", MEMORY CHANGED")
        }
    }
}

// Writes bytes from an index on, as far as the memory goes.
pub fn write_bytes(p: &mut [u8], at: usize, bytes: &[u8]) {
    if p.len() < at {
        return;
    }
    for (place, b) in p[at..].iter_mut().zip(bytes) {
        *place = *b;
    }
}
