// A row of document 01's table of ranges, as document 02 leaves it (E2, E3, E6): how many data an SN of that name has,
// the name, the number one below its range, the first, the last and the one above it, and for an SN the same of a
// datum. Each is served to station 1, and a line says what was answered.
ghost use Rattle.std.specs.Prelude.{◌≤◌};

use frame::STX;
use frame::writer::close_frame;
use gateway::serve::serve;
use print::words::word;
use print::{Slice, front, show};
use tables::arms::Arms;
use text::put::{Cursor, put_bytes};

// The field of a datum that is tried, and the word of the row that stands there.
#[derive(Clone, Copy)]
struct Datum {
    field: usize,
    word: usize,
}

// What is tried of a row: the name's first letter, how many data are given, the word of the number, and the datum; the other
// data are 0.
#[derive(Clone, Copy)]
struct Trial {
    letter: u8,
    count: usize,
    number: usize,
    datum: Option<Datum>,
}

// A frame that is being written, and where it ends.
#[derive(Drop)]
struct Draft {
    area: [u8; 256],
    end: Cursor,
    ghost in_bounds: { end.at ≤ 200 },
}

impl Draft {
    fn new() -> Draft {
        let mut area = [0; 256];
        area[0] = STX;
        Draft {
            area,
            end: Cursor { at: 1, sum: 0 },
        }
    }

    // Puts s at the end, where it has room.
    fn append(&mut self, s: &[u8]) {
        let end = self.end;
        if 200 - end.at < s.len() {
            return;
        }
        let after = put_bytes(&mut self.area[..], end, s);
        self.end = after;
    }

    // The frame as far as it is written.
    fn text(&self) -> &[u8] {
        front(&self.area, self.end.at)
    }

    // The frame with ETX and the LRC.
    fn closed(&mut self) -> &[u8] {
        let n = close_frame(&mut self.area[..], self.end);
        front(&self.area, n)
    }
}

// The frame of a trial to station 1, without ETX and LRC.
fn draft_of(row: &[u8], trial: Trial) -> Draft {
    let mut draft = Draft::new();
    draft.append(b"1 ");
    draft.append(&[trial.letter]);
    draft.append(word(row, 1).get(1..).unwrap_or(&[]));
    draft.append(b" ");
    draft.append(word(row, trial.number));
    for field in 1..=trial.count {
        draft.append(b" ");
        match trial.datum {
            Some(datum) if datum.field == field => draft.append(word(row, datum.word)),
            _ => draft.append(b"0"),
        }
    }
    draft
}

fn first_letter(row: &[u8]) -> u8 {
    word(row, 1).first().copied().unwrap_or(0)
}

// How many data the row says.
fn count_of(row: &[u8]) -> usize
    ensures { result ≤ 4 }
{
    match row.first() {
        Some(b'1') => 1,
        Some(b'4') => 4,
        _ => 0,
    }
}

// Serves a trial, and says which it is and what was answered.
fn serve_trial(
    rt: &impl Print,
    arms: &mut Arms<'_>,
    p: &mut [u8],
    s: &[u8; 4],
    row: &[u8],
    trial: Trial,
) {
    let mut draft = draft_of(row, trial);
    show(rt, format_args!("range {}", Slice(draft.text())));
    let mut reply = [0u8; 64];
    let sent = serve(arms, p, s, draft.closed(), &mut reply);
    let written = Slice(front(&reply, sent.length));
    show(rt, format_args!(": {:02} {written}\n", sent.number));
}

// Serves every trial of a row: the four numbers with data of 0, and then for each field the four data under the first number and
// the LN of what was stored.
pub fn try_row(rt: &impl Print, arms: &mut Arms<'_>, p: &mut [u8], s: &[u8; 4], row: &[u8]) {
    let first = Trial {
        letter: first_letter(row),
        count: count_of(row),
        number: 3,
        datum: None,
    };
    for number in 2..6 {
        serve_trial(rt, arms, p, s, row, Trial { number, ..first });
    }
    for field in 1..=first.count {
        for word in 6..10 {
            let datum = Some(Datum { field, word });
            serve_trial(rt, arms, p, s, row, Trial { datum, ..first });
        }
        let loaded = Trial {
            letter: b'L',
            count: 0,
            ..first
        };
        serve_trial(rt, arms, p, s, row, loaded);
    }
}
