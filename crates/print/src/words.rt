// The words of a line, and its other parts.
use text::field::At;
use text::whole::read_whole;

// How many times a byte stands in s.
pub fn count(s: &[u8], byte: u8) -> usize {
    s.iter().filter(|b| **b == byte).count()
}

// Part k of s, the parts having one `mark` between them; an empty part where there is none.
pub fn part(s: &[u8], mark: u8, k: usize) -> &[u8] {
    s.split(|b| *b == mark).nth(k).unwrap_or(&[])
}

pub fn word(line: &[u8], k: usize) -> &[u8] {
    part(line, b' ', k)
}

// Word k of a line as a number; 0 where it is none, as the scripts have it.
pub fn number(line: &[u8], k: usize) -> u16 {
    read_whole(At::front(word(line, k))).map_or(0, |field| field.value)
}

// Word k of a line as a byte; 0 where it is none.
pub fn byte(line: &[u8], k: usize) -> u8 {
    u8::try_from(number(line, k)).unwrap_or(0)
}

// The four stations that a line says from word k on.
pub fn stations(line: &[u8], k: u8) -> [u16; 4] {
    let first = k as usize;
    let a = number(line, first);
    let b = number(line, first + 1);
    let c = number(line, first + 2);
    let d = number(line, first + 3);
    [a, b, c, d]
}
