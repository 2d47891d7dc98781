// A reply read, with its numbers as doubles.
ghost use Rattle.std.specs.Prelude.{◌≡◌};
ghost use Rattle.harl.specs.Message.{read_reply};
ghost use Rattle.readings.specs.Reply.{read_values, converted};

use crate::convert::{Converted, convert};
use harl::message::{Asked, read_reply};
use refusals::refusal::Refused;

// Reads the reply to a request, and converts it: checks 7, 11 and 12 of the request, 2 to 7 of the slice, then 15.
pub fn read_converted(slice: &[u8], asked: Asked) -> Result<Converted, Refused>
    ensures { read_values result ≡ converted (read_reply slice.now asked.station asked.request) }
{
    Ok(convert(read_reply(slice, asked)?))
}
