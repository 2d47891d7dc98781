// Whole numbers: read from 1 to 4 digits, leading zeros allowed; written shortest, or always with 4 digits.
ghost use Rattle.std.specs.Prelude.{◌≡◌, ◌≤◌, ◌<◌, ◌+◌, length, drop, IfOk};
ghost use Rattle.text.specs.Put.{Put};
ghost use Rattle.text.specs.Read.{read_field_at};
ghost use Rattle.text.specs.Whole.{read_whole, digit_count, digit_value, digit, leading, shortest, two_digits, padded};

use crate::field::{At, Field, Malformed};
use crate::put::{Cursor, put_byte};
use crate::scan::is_end;

// Reads the digits that stand at an index, 4 at most.
#[tactic(auto, unfolding(crate::specs::Whole::digit_count, crate::specs::Whole::digit_value))]
pub fn read_digits(from: At<'_>) -> Field<u16>
    ensures end_value { (result.end ≡ from.entry.index + digit_count 4 (drop from.entry.index from.entry.text.now)) × (result.value ≡ digit_value 4 0 (drop from.entry.index from.entry.text.now)) }
    ensures end_in_bounds { (result.end ≤ length from.entry.text.now) × (result.value < 10000) }
{
    let mut digits = Field {
        value: 0,
        end: from.index,
    };
    for b in from.text[from.index..].iter().take(4) {
        if !b.is_ascii_digit() {
            return digits;
        }
        digits.value = digits.value * 10 + (*b - b'0') as u16;
        digits.end += 1;
    }
    digits
}

// Reads the field at an index as a whole number, byte by byte up to its end; any other text is malformed.
pub fn read_whole(from: At<'_>) -> Result<Field<u16>, Malformed>
    ensures value { result ≡ read_field_at read_whole from.entry.text.now from.entry.index }
    ensures end_in_bounds { IfOk result (λ f. f.end ≤ length from.entry.text.now) }
{
    let digits = read_digits(from);
    let end = At {
        text: from.text,
        index: digits.end,
    };
    if digits.end != from.index && is_end(end) {
        return Ok(digits);
    }
    Err(Malformed {
        position: from.index,
    })
}

// Writes the digit of v that counts units of `unit`.
fn put_digit(area: &mut [u8], to: Cursor, unit: u16, v: u16) -> Cursor
    requires { (0 < unit) × (to.at < length area.old) }
    ensures { Put area.old to (digit unit v) result area.new }
{
    let d = v / unit % 10;
    put_byte(area, to, d as u8 + b'0')
}

// Writes that digit, or nothing where v is below `unit`.
fn put_leading(area: &mut [u8], to: Cursor, unit: u16, v: u16) -> Cursor
    requires { (0 < unit) × (to.at + length (leading unit v) ≤ length area.old) }
    ensures { Put area.old to (leading unit v) result area.new }
{
    if v < unit {
        return to;
    }
    put_digit(area, to, unit, v)
}

// Writes v with no leading zero; of 10000 or more, the last 4 digits. Stations and most numbers have one digit or two.
pub fn put_shortest(area: &mut [u8], to: Cursor, v: u16) -> Cursor
    requires { to.at + length (shortest v) ≤ length area.old }
    ensures { Put area.old to (shortest v) result area.new }
{
    if v < 10 {
        return put_digit(area, to, 1, v);
    }
    if v < 100 {
        return put_two_digits(area, to, v);
    }
    let hundreds = put_leading(area, to, 1000, v);
    let tens = put_leading(area, hundreds, 100, v);
    let ones = put_leading(area, tens, 10, v);
    put_digit(area, ones, 1, v)
}

// Writes v with 2 digits; of 100 or more, the last 2.
pub fn put_two_digits(area: &mut [u8], to: Cursor, v: u16) -> Cursor
    requires { to.at + 2 ≤ length area.old }
    ensures { Put area.old to (two_digits v) result area.new }
{
    let last = put_digit(area, to, 10, v);
    put_digit(area, last, 1, v)
}

// Writes v with 4 digits; of 10000 or more, the last 4.
pub fn put_padded(area: &mut [u8], to: Cursor, v: u16) -> Cursor
    requires { to.at + 4 ≤ length area.old }
    ensures { Put area.old to (padded v) result area.new }
{
    let hundreds = put_digit(area, to, 1000, v);
    let tens = put_digit(area, hundreds, 100, v);
    put_two_digits(area, tens, v)
}
