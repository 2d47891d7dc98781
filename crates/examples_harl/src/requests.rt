// Requests read from frames, and written.
ghost use Rattle.std.specs.Prelude.{◌≤◌};

use crate::cases::asked_of;
use crate::words::Wanted;
use harl::message::{Asked, read_request, write_request};
use print::{Place, Slice, answer, show};

// Writes a request into an area of N bytes, filled with AAh.
fn write_asked<const N: usize>(rt: &impl Print, asked: Asked)
    requires { N ≤ 64 }
{
    let mut area = [0xaa; N];
    let written = write_request(&mut area, asked);
    show(
        rt,
        format_args!(
            "request written {}{}\n",
            Wanted(asked),
            answer(written, &area)
        ),
    );
}

// Reads a request. One that is accepted is written too.
pub fn read(rt: &impl Print, slice: &[u8]) {
    show(rt, format_args!("request {}: ", Slice(slice)));
    match read_request(slice) {
        Ok(asked) => {
            show(rt, format_args!("00 {}\n", Wanted(asked)));
            write_asked::<64>(rt, asked);
        }
        Err(refused) => show(rt, format_args!("{}\n", Place(refused))),
    }
}

// Writes the request of a letter into an area of N bytes.
pub fn write<const N: usize>(rt: &impl Print, letter: u8)
    requires { N ≤ 64 }
{
    write_asked::<N>(rt, asked_of(letter));
}

// Writes the request of a letter into an area of 64 bytes.
pub fn write_typed(rt: &impl Print, letter: u8) {
    write::<64>(rt, letter);
}

// Writes it into an area of 63 bytes, which is refused before anything else is.
pub fn write_narrow(rt: &impl Print, letter: u8) {
    write::<63>(rt, letter);
}
