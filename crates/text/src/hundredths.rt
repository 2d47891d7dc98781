// Hundredths: read from an optional "-", 1 to 4 digits, and nothing or a point with 1 or 2 digits; written
// with the shortest whole part and two decimals, "-" only below zero.
ghost use Rattle.std.specs.Prelude.{◌≡◌, ◌≤◌, ◌<◌, ◌+◌, not, eqb, length, option_map};
ghost use Rattle.text.specs.Put.{Put};
ghost use Rattle.text.specs.Scan.{field_at, end_at};
ghost use Rattle.text.specs.Read.{field_with, read_field_at};
ghost use Rattle.text.specs.Hundredths.{decimals, magnitude, signed, read_hundredths, magnitude_text, sign, hundredths_text};

use crate::field::{At, Field, Malformed};
use crate::put::{Cursor, put_byte};
use crate::scan::is_end;
use crate::whole::{put_shortest, put_two_digits, read_digits, read_whole};

// Reads the field at an index as the digits after a point: one counts tenths, two count hundredths.
fn read_decimals(from: At<'_>) -> Option<Field<u16>>
    ensures { result ≡ field_with decimals from.entry.text.now from.entry.index }
{
    let Ok(digits) = read_whole(from) else {
        return None;
    };
    match digits.end - from.index {
        1 => Some(Field {
            value: digits.value * 10,
            end: digits.end,
        }),
        2 => Some(digits),
        _ => None,
    }
}

// Reads the field at an index as a number without a sign.
fn read_magnitude(from: At<'_>) -> Option<Field<u32>>
    ensures { result ≡ field_with magnitude from.entry.text.now from.entry.index }
{
    let digits = read_digits(from);
    let units = digits.value as u32;
    if digits.end == from.index {
        return None;
    }
    let point = At {
        text: from.text,
        index: digits.end,
    };
    if is_end(point) {
        return Some(Field {
            value: units * 100,
            end: digits.end,
        });
    }
    if from.text[digits.end] != b'.' {
        return None;
    }
    let decimals = read_decimals(At {
        text: from.text,
        index: digits.end + 1,
    })?;
    Some(Field {
        value: units * 100 + decimals.value as u32,
        end: decimals.end,
    })
}

// The magnitude with its sign.
fn with_sign(m: u32, minus: bool) -> i32
    requires { m < 1000000 }
    ensures { result ≡ signed minus m }
{
    if minus { 0 - (m as i32) } else { m as i32 }
}

// Where the digits of the field at an index start: behind "-", where one stands there.
fn after_sign<'a>(from: At<'a>) -> At<'a>
    ensures from_value { read_hundredths (field_at from.entry.text.now from.entry.index) ≡ option_map (signed (not (eqb result.index from.entry.index))) (magnitude (field_at from.entry.text.now result.index)) }
    ensures result_value { (end_at from.entry.text.now result.index ≡ end_at from.entry.text.now from.entry.index) × (result.text.now ≡ from.entry.text.now) }
{
    if from.index < from.text.len() && from.text[from.index] == b'-' {
        return At {
            text: from.text,
            index: from.index + 1,
        };
    }
    from
}

// Reads the field at an index as a number of hundredths, byte by byte up to its end; any other text is malformed.
pub fn read_hundredths(from: At<'_>) -> Result<Field<i32>, Malformed>
    ensures { result ≡ read_field_at read_hundredths from.entry.text.now from.entry.index }
{
    let digits = after_sign(from);
    let Some(size) = read_magnitude(digits) else {
        return Err(Malformed {
            position: from.index,
        });
    };
    Ok(Field {
        value: with_sign(size.value, digits.index != from.index),
        end: size.end,
    })
}

// Writes a number without a sign.
fn put_magnitude(area: &mut [u8], to: Cursor, m: u32) -> Cursor
    requires { to.at + length (magnitude_text m) ≤ length area.old }
    ensures { Put area.old to (magnitude_text m) result area.new }
{
    let cents = (m % 100) as u16;
    let point = put_shortest(area, to, (m / 100 % 10000) as u16);
    let decimals = put_byte(area, point, b'.');
    put_two_digits(area, decimals, cents)
}

// Writes "-", where there is a minus.
fn put_sign(area: &mut [u8], to: Cursor, minus: bool) -> Cursor
    requires { to.at + length (sign minus) ≤ length area.old }
    ensures { Put area.old to (sign minus) result area.new }
{
    if minus {
        return put_byte(area, to, b'-');
    }
    to
}

// Writes v hundredths; of a whole part with more than 4 digits, the last 4.
pub fn put_hundredths(area: &mut [u8], to: Cursor, v: i32) -> Cursor
    requires { to.at + length (hundredths_text v) ≤ length area.old }
    ensures { Put area.old to (hundredths_text v) result area.new }
{
    let m = v.unsigned_abs();
    let digits = put_sign(area, to, v < 0);
    put_magnitude(area, digits, m)
}
