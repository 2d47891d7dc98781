// A bit of a port.
ghost use Rattle.std.specs.Prelude.{◌<◌};

// The port, and the number of the bit in it.
#[derive(Clone, Copy)]
pub struct Place {
    pub port: usize,
    pub bit: u8,
    ghost in_byte: { bit < 8 },
}
