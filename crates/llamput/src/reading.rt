// Replies read with their numbers as doubles, for export.
ghost use Rattle.std.specs.Prelude.{◌≡◌};
ghost use Rattle.untyped.specs.Untyped.{read_coded, numbers_of, doubles_for};
ghost use Rattle.llamput.specs.Reading.{Told};

use untyped::read::{convert_values, read_doubles};

// What reading a reply comes to, as C is given it, by numbers: the refusal number, or 0; the status that the reply carries, 0
// where it carries none; and the position of a refusal.
#[repr(C)]
#[derive(Clone, Copy)]
pub struct Reply {
    pub number: u8,
    pub status: u8,
    pub position: usize,
}

// Reads the reply to the request of a command, a number and data.
pub fn llamput_read_converted(
    slice: &[u8],
    station: u8,
    command: u8,
    number: u16,
    values: &[i32; 4],
    texts: &[u64; 5],
    kind: &mut u8,
    doubles: &mut [f64; 4],
    step: &mut [u64; 5],
) -> Reply
    ensures { Told (numbers_of (read_coded slice.now station command number values.now texts.now)) result kind.new doubles.new step.new }
{
    let told = read_doubles(slice, station, command, number, *values, *texts);
    let converted = told.doubles;
    let read = told.texts;
    *kind = told.kind;
    *doubles = converted;
    *step = read;
    Reply {
        number: told.number,
        status: told.status,
        position: told.position,
    }
}

// Converts data of a kind.
pub fn llamput_convert(kind: u8, values: &[i32; 4], doubles: &mut [f64; 4])
    ensures { doubles.new ≡ doubles_for kind values.now }
{
    *doubles = convert_values(kind, *values);
}
