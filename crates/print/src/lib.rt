// What the example programs print: bytes, texts and answers, each as its `Display` writes it.
#![tactic(auto)]

use lines::writer::capital_of;
use refusals::refusal::{Refusal, Refused, number_in};
use std::fmt;
use std::fmt::Display;

pub mod input; // input.rt: the lines of standard input
pub mod texts; // texts.rt: typed texts as characters
pub mod words; // words.rt: the words of a line

// Prints a value on standard output. Where that fails, nothing is left to tell, and the program goes on.
pub fn show<D: Display + Drop>(rt: &impl Print, value: D) {
    if rt.print(value).is_err() {}
}

// Prints bytes as they stand. They are not formatted, so that a line without a number is no dearer than its write.
pub fn show_bytes(rt: &impl Print, bytes: &[u8]) {
    if rt.write_all(bytes).is_err() {}
}

// A byte by its two hexadecimal digits; not by `{:02X}`, since edits of must-fail/ need the clause of `capital_of`.
#[derive(Clone, Copy)]
struct Byte(u8);

impl Display for Byte {
    fn fmt<W: fmt::Write>(&self, f: &mut fmt::Formatter<W>) -> fmt::Result {
        let b = self.0;
        f.write_char(char::from(capital_of(b / 16)))?;
        f.write_char(char::from(capital_of(b % 16)))
    }
}

// Each byte in hexadecimal, with a space between two.
#[derive(Clone, Copy)]
pub struct Bytes<'a>(pub &'a [u8]);

impl Display for Bytes<'_> {
    fn fmt<W: fmt::Write>(&self, f: &mut fmt::Formatter<W>) -> fmt::Result {
        for (i, b) in self.0.iter().enumerate() {
            if 0 < i {
                write!(f, " ")?;
            }
            Byte(*b).fmt(f)?;
        }
        Ok(())
    }
}

// A text: each byte that is a character as it is, and any other in hexadecimal between < and >.
#[derive(Clone, Copy)]
pub struct Text<'a>(pub &'a [u8]);

impl Display for Text<'_> {
    fn fmt<W: fmt::Write>(&self, f: &mut fmt::Formatter<W>) -> fmt::Result {
        for b in self.0 {
            if 0x20 <= *b && *b <= 0x7e {
                f.write_char(char::from(*b))?;
            } else {
                let byte = Byte(*b);
                write!(f, "<{byte}>")?;
            }
        }
        Ok(())
    }
}

// A slice: its bytes as text; of none, that there are none.
#[derive(Clone, Copy)]
pub struct Slice<'a>(pub &'a [u8]);

impl Display for Slice<'_> {
    fn fmt<W: fmt::Write>(&self, f: &mut fmt::Formatter<W>) -> fmt::Result {
        if self.0.is_empty() {
            return write!(f, "no bytes");
        }
        Text(self.0).fmt(f)
    }
}

// The first n bytes of s; all of s where it has fewer.
pub fn front(s: &[u8], n: usize) -> &[u8] {
    s.get(..n).unwrap_or(s)
}

// How many bytes at the end of an area are still AAh, with which it was filled.
#[derive(Clone, Copy)]
pub struct Untouched<'a>(pub &'a [u8]);

impl Display for Untouched<'_> {
    fn fmt<W: fmt::Write>(&self, f: &mut fmt::Formatter<W>) -> fmt::Result {
        let n = self.0.iter().rev().take_while(|b| **b == 0xaa).count();
        write!(f, ", {n} untouched")
    }
}

// What a call answered: its number, the bytes that it wrote or what is said of none, and what it left of the area. By numbers,
// as `Sent` has them: serving may return both a refusal and a reply.
#[derive(Clone, Copy)]
pub struct Written<'a> {
    pub number: u8,
    pub length: usize,
    pub none: &'a str,
    pub area: &'a [u8],
}

impl Display for Written<'_> {
    fn fmt<W: fmt::Write>(&self, f: &mut fmt::Formatter<W>) -> fmt::Result {
        let (number, none, left) = (self.number, self.none, Untouched(self.area));
        if self.length == 0 {
            return write!(f, ": {number:02}{none}{left}");
        }
        let bytes = Bytes(front(self.area, self.length));
        write!(f, ": {number:02} {bytes}{left}")
    }
}

// What a writer answered: the length of the frame that it wrote, or the refusal.
pub fn answer(written: Result<usize, Refusal>, area: &[u8]) -> Written<'_> {
    let (number, length) = match written {
        Ok(length) => (0, length),
        Err(refusal) => (refusal.number(), 0),
    };
    Written {
        number,
        length,
        none: ", nothing",
        area,
    }
}

// The number of what a call came to, with two digits.
#[derive(Clone, Copy)]
pub struct Number(pub Result<(), Refusal>);

impl Display for Number {
    fn fmt<W: fmt::Write>(&self, f: &mut fmt::Formatter<W>) -> fmt::Result {
        write!(f, "{:02}", number_in(self.0))
    }
}

// A slice that was refused: the number, with two digits, and the position.
#[derive(Clone, Copy)]
pub struct Place(pub Refused);

impl Display for Place {
    fn fmt<W: fmt::Write>(&self, f: &mut fmt::Formatter<W>) -> fmt::Result {
        let refused = self.0;
        write!(f, "{:02} @{}", refused.refusal.number(), refused.position)
    }
}
