// The ports of one arm, whole and by signal. Inputs, outputs and memory share what reads them, so that each function asks
// anew whether a port is one of those it is lent: there are 32 or 16. A write of an output port also changes the number of
// outputs that are on, which stands in a table of its own: it is given the number, and returns what it then is. Memory has no
// such number, and so its writers are others.
ghost use Rattle.std.specs.Prelude.{◌≡◌, ◌<◌, length, get_or, set, nat_abs, pos};
ghost use Rattle.replies.specs.declared.reply.Data.TheVariants as held;
ghost use Rattle.ports.specs.Bits.{bit, with_bit};
ghost use Rattle.ports.specs.On.{moved};
ghost use Rattle.ports.specs.Place.{byte_with, spot};

use crate::place::Place;
use commands::request::Port;
use replies::reply::Data;

// Bit k of a byte.
fn bit_of(b: u8, k: u8) -> u8
    requires { k < 8 }
    ensures { result ≡ bit b k }
{
    (b >> k) % 2
}

// A byte with v for its bit k.
fn with_bit(b: u8, k: u8, v: u8) -> u8
    requires { (k < 8) × (v < 2) }
    ensures { result ≡ with_bit b k v }
{
    let w = 1u8 << k;
    b - (b >> k) % 2 * w + v * w
}

// The signal at a place.
pub fn load_signal(ports: &[u8], place: Place) -> Data
    requires { place.port < length ports.now }
    ensures { result ≡ held.Signal (pos (bit (get_or ports.now place.port 0) place.bit)) }
{
    Data::Signal(bit_of(ports[place.port], place.bit) as i32)
}

// A whole port.
pub fn load_port(ports: &[u8], port: Port) -> Data
    requires { port.0 < length ports.now }
    ensures { result ≡ held.Port (pos (get_or ports.now port.0 0)) }
{
    Data::Port(ports[port.0 as usize] as i32)
}

// The byte of a place's port, with v for the bit there.
fn byte_with(ports: &[u8], place: Place, v: i32) -> u8
    requires { (place.port < length ports.now) × (nat_abs v < 2) }
    ensures { result ≡ byte_with ports.now (spot place) (nat_abs v) }
{
    with_bit(ports[place.port], place.bit, v.unsigned_abs() as u8)
}

// Puts a byte into a port. Every SN that changes a port goes through here.
fn set_port(ports: &mut [u8], port: usize, v: u8)
    requires { port < length ports.old }
    ensures { ports.new ≡ set ports.old port v }
{
    ports[port] = v;
}

// The number kept, once a port has `after` for `before`. Adding 65536 keeps the difference above zero.
fn moved_by(total: u16, before: u8, after: u8) -> u16
    ensures { result ≡ moved total before after }
{
    ((total as u32 + after.count_ones() + 65536 - before.count_ones()) % 65536) as u16
}

// Puts a byte into an output port, and returns the number kept then. Every write of an output port goes through here.
fn set_output(ports: &mut [u8], on: u16, port: usize, v: u8) -> u16
    requires { port < length ports.old }
    ensures ports_after { ports.new ≡ set ports.old port v }
    ensures value { result ≡ moved on (get_or ports.old port 0) v }
{
    let before = ports[port];
    set_port(ports, port, v);
    moved_by(on, before, v)
}

// Replaces the memory bit at a place.
pub fn store_bit(ports: &mut [u8], place: Place, v: i32)
    requires { (place.port < length ports.old) × (nat_abs v < 2) }
    ensures { ports.new ≡ set ports.old place.port (byte_with ports.old (spot place) (nat_abs v)) }
{
    let b = byte_with(ports, place, v);
    set_port(ports, place.port, b);
}

// Replaces a whole memory port.
pub fn store_port(ports: &mut [u8], port: Port, v: i32)
    requires { (port.0 < length ports.old) × (nat_abs v < 256) }
    ensures { ports.new ≡ set ports.old port.0 (nat_abs v) }
{
    set_port(ports, port.0 as usize, v.unsigned_abs() as u8);
}

// Replaces the output at a place.
pub fn store_output(ports: &mut [u8], on: u16, place: Place, v: i32) -> u16
    requires { (place.port < length ports.old) × (nat_abs v < 2) }
    ensures ports_after { ports.new ≡ set ports.old place.port (byte_with ports.old (spot place) (nat_abs v)) }
    ensures value { result ≡ moved on (get_or ports.old place.port 0) (byte_with ports.old (spot place) (nat_abs v)) }
{
    let b = byte_with(ports, place, v);
    set_output(ports, on, place.port, b)
}

// Replaces a whole output port.
pub fn store_output_port(ports: &mut [u8], on: u16, port: Port, v: i32) -> u16
    requires { (port.0 < length ports.old) × (nat_abs v < 256) }
    ensures ports_after { ports.new ≡ set ports.old port.0 (nat_abs v) }
    ensures value { result ≡ moved on (get_or ports.old port.0 0) (nat_abs v) }
{
    set_output(ports, on, port.0 as usize, v.unsigned_abs() as u8)
}
