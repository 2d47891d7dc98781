// Replies written and read back, and slices read as replies.
ghost use Rattle.std.specs.Prelude.{◌≤◌};

use crate::cases::asked_of;
use crate::typed_steps::step_of;
use crate::words::{Carried, Wanted};
use commands::request::Row;
use harl::message::{read_reply, write_reply};
use print::{Place, Slice, answer, front, show};
use replies::reply::{Data, Outcome};

// What a reply carries, and the letter of the request that it answers.
#[derive(Clone, Copy)]
struct Reply(Outcome, u8);

// Reads a slice as the reply to the request of a letter.
pub fn read(rt: &impl Print, letter: u8, slice: &[u8]) {
    let asked = asked_of(letter);
    show(
        rt,
        format_args!("reply {} to {}: ", Slice(slice), Wanted(asked)),
    );
    match read_reply(slice, asked) {
        Ok(outcome) => show(rt, format_args!("00 {}\n", Carried(outcome))),
        Err(refused) => show(rt, format_args!("{}\n", Place(refused))),
    }
}

fn data(held: Data, letter: u8) -> Reply {
    Reply(Outcome::Data(held), letter)
}

// A row, which answers the request K.
fn row(x: i32, y: i32, z: i32, w: i32) -> Reply {
    data(Data::Row(Row { x, y, z, w }), b'K')
}

fn status(n: u8, letter: u8) -> Reply {
    Reply(Outcome::Status(n), letter)
}

// Step n with the texts of a letter, which answers a request.
fn step(n: u16, texts: u8, letter: u8) -> Reply {
    data(Data::Step(n, step_of(texts)), letter)
}

// Digits and capitals: replies to requests for steps. A to S carry the texts of the small letter.
fn step_reply(letter: u8) -> Reply {
    match letter {
        // The longest reply.
        b'E' => step(255, b'e', b'u'),
        // Statuses, of an LNA and of an SNA.
        b'0' => status(16, b't'),
        b'1' => status(0, b'a'),
        b'2' => status(16, b'a'),
        // Check 12: another step, one out of range, a step for a timer, a timer for a step, a step for an SNA.
        b'3' => step(8, b'a', b't'),
        b'4' => step(256, b'a', b't'),
        b'5' => step(7, b'a', b'I'),
        b'6' => data(Data::Timer(999), b't'),
        b'7' => step(7, b'a', b'a'),
        // Checks 11 and 12 of the request come before.
        b'8' => step(256, b's', b'v'),
        b'9' => status(0, b's'),
        _ => step(7, letter % 32 + 96, b't'),
    }
}

// The replies that are written, each by a letter.
fn reply_of(letter: u8) -> Reply {
    if letter < b'a' {
        return step_reply(letter);
    }
    match letter {
        // Data of each kind.
        b'a' => data(Data::Timer(999), b'I'),
        b'b' => data(Data::Register(42), b'J'),
        b'c' => row(-5, 999999, -999999, 1250),
        b'd' => data(Data::Signal(1), b'L'),
        b'e' => data(Data::Port(255), b'M'),
        // Statuses, the last of them P2's.
        b'f' => status(5, b'I'),
        b'g' => status(5, b'N'),
        b'h' => status(0, b'A'),
        // The ends of the statuses, of an LN and of an SN.
        b'i' => status(0, b'I'),
        b'j' => status(99, b'I'),
        b'k' => status(99, b'N'),
        b'l' => status(100, b'I'),
        b'm' => status(100, b'N'),
        // Check 12 of what a reply carries: data of another kind or out of range, data for an SN.
        b'n' => data(Data::Register(5), b'I'),
        b'o' => data(Data::Timer(1000), b'I'),
        b'p' => data(Data::Timer(-1), b'I'),
        b'q' => data(Data::Timer(0), b'N'),
        b'v' => row(0, 0, 1000000, 0),
        b'w' => row(0, 0, 0, -1000000),
        // Checks 7, 11 and 12 of the request come before.
        b'r' => status(100, b'B'),
        b's' => status(100, b'D'),
        b't' => status(0, b'G'),
        // Check 7 refuses this.
        _ => data(Data::Timer(999), b'O'),
    }
}

// Writes the reply of a letter into an area of N bytes, filled with AAh. One that is written is read back.
pub fn write<const N: usize>(rt: &impl Print, letter: u8)
    requires { N ≤ 64 }
{
    let Reply(outcome, request) = reply_of(letter);
    let asked = asked_of(request);
    let mut area = [0xaa; N];
    let written = write_reply(&mut area, asked, outcome);
    show(
        rt,
        format_args!("reply written {} to {}", Carried(outcome), Wanted(asked)),
    );
    show(rt, format_args!("{}\n", answer(written, &area)));
    if let Ok(length) = written {
        read(rt, request, front(&area, length));
    }
}

// Writes the reply of a letter into an area of 64 bytes.
pub fn write_typed(rt: &impl Print, letter: u8) {
    write::<64>(rt, letter);
}

// Writes it into an area of 63 bytes, which is refused before anything else is.
pub fn write_narrow(rt: &impl Print, letter: u8) {
    write::<63>(rt, letter);
}
