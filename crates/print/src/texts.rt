// Typed texts, and the steps that they make, as characters. The library's own writer is not used.
use crate::{Bytes, Text};
use std::fmt;
use std::fmt::Display;
use steps::step::Step;

// Not the library's `is_char`, so that a fault of the library shows.
fn is_character(b: u8) -> bool {
    0x21 <= b && b <= 0x7e
}

// A typed text by its characters; no text as <>, and a number that is none by its bytes, the lowest first.
#[derive(Clone, Copy)]
struct Typed(steps::texts::Text);

impl Display for Typed {
    fn fmt<W: fmt::Write>(&self, f: &mut fmt::Formatter<W>) -> fmt::Result {
        let bytes = self.0.0.to_le_bytes();
        let end = bytes.iter().position(|b| !is_character(*b));
        let (characters, rest) = bytes.as_slice().split_at(end.unwrap_or(8));
        if rest.iter().any(|b| *b != 0) {
            write!(f, "<{}>", Bytes(&bytes))
        } else if characters.is_empty() {
            write!(f, "<>")
        } else {
            Text(characters).fmt(f)
        }
    }
}

// The command, and the data up to the last that is not 0, each after a space.
#[derive(Clone, Copy)]
pub struct Texts(pub Step);

impl Display for Texts {
    fn fmt<W: fmt::Write>(&self, f: &mut fmt::Formatter<W>) -> fmt::Result {
        let step = self.0;
        let data = [step.first, step.second, step.third, step.fourth];
        let end = data
            .iter()
            .rposition(|t| t.0 != 0)
            .map_or(0, |last| last + 1);
        write!(f, " {}", Typed(step.command))?;
        for t in &data[..end] {
            write!(f, " {}", Typed(*t))?;
        }
        Ok(())
    }
}
