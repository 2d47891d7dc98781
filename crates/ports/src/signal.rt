// Where a signal stands among the ports.
ghost use Rattle.std.specs.Prelude.{◌≡◌, ◌≤◌};
ghost use Rattle.ports.specs.Place.{place_of, spot};

use crate::place::Place;
use commands::request::Signal;

// The number of the first input and output, and of the first memory bit.
pub const FIRST_SIGNAL: u16 = 0;

pub const FIRST_MEMORY_BIT: u16 = 256;

// The place of a signal in ports that start with the signal `first`.
pub fn place_of(first: u16, signal: Signal) -> Place
    requires { first ≤ signal.0 }
    ensures { spot result ≡ place_of first signal.0 }
{
    let n = signal.0 - first;
    Place {
        port: (n / 8) as usize,
        bit: (n % 8) as u8,
    }
}
