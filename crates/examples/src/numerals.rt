// Numbers read from texts, and written as texts.
use print::{Text, front, show};
use std::fmt;
use text::field::{At, Field, Malformed};
use text::hundredths::{put_hundredths, read_hundredths};
use text::put::Cursor;
use text::whole::{put_padded, put_shortest, read_whole};

// What a reader of numbers answered.
#[derive(Clone, Copy)]
struct Read<T>(Result<Field<T>, Malformed>);

impl<T: fmt::Display> fmt::Display for Read<T> {
    fn fmt<W: fmt::Write>(&self, f: &mut fmt::Formatter<W>) -> fmt::Result {
        match &self.0 {
            Ok(field) => field.value.fmt(f),
            Err(_) => write!(f, "malformed"),
        }
    }
}

pub fn read_as_hundredths(rt: &impl Print, text: &[u8]) {
    let read = Read(read_hundredths(At::front(text)));
    show(rt, format_args!("hundredths [{}]: {read}\n", Text(text)));
}

pub fn read_as_whole(rt: &impl Print, text: &[u8]) {
    let read = Read(read_whole(At::front(text)));
    show(rt, format_args!("whole [{}]: {read}\n", Text(text)));
}

#[tactic(auto, using(text::proofs::Decimals::text_short))]
fn write_hundredths(rt: &impl Print, v: i32) {
    let mut area = [0u8; 8];
    let n = put_hundredths(&mut area, Cursor { at: 0, sum: 0 }, v).at;
    let text = Text(front(&area, n));
    show(rt, format_args!("hundredths written {v}: [{text}]\n"));
}

pub fn hundredths_written(rt: &impl Print) {
    for v in [5, -5, 0, 999999, -999999] {
        write_hundredths(rt, v);
    }
}

// A whole number in its shortest form, and with four digits.
#[tactic(auto, using(text::proofs::Digits::shortest_short))]
fn write_whole(rt: &impl Print, v: u16) {
    let (mut shortest, mut padded) = ([0u8; 4], [0u8; 4]);
    let m = put_shortest(&mut shortest, Cursor { at: 0, sum: 0 }, v).at;
    let n = put_padded(&mut padded, Cursor { at: 0, sum: 0 }, v).at;
    let (shortest, padded) = (Text(front(&shortest, m)), Text(front(&padded, n)));
    show(
        rt,
        format_args!("whole written {v}: [{shortest}] [{padded}]\n"),
    );
}

pub fn wholes_written(rt: &impl Print) {
    for v in [0, 42, 9999] {
        write_whole(rt, v);
    }
}
