// One field of data, read and written.
ghost use Rattle.std.specs.Prelude.{◌≡◌, ◌≤◌, ◌+◌, length};
ghost use Rattle.text.specs.Put.{Put};
ghost use Rattle.text.specs.Read.{read_field_at};
ghost use Rattle.numbers.specs.Numbers.{read_whole_field, field_in, digits_of, field_text};

use commands::table::Kind;
use text::field::{At, Field, Malformed};
use text::hundredths::{put_hundredths, read_hundredths};
use text::put::Cursor;
use text::whole::{put_padded, put_shortest, read_whole};

// Reads the field at an index as a whole number.
fn whole_field(from: At<'_>) -> Result<Field<i32>, Malformed>
    ensures { result ≡ read_field_at read_whole_field from.entry.text.now from.entry.index }
{
    let whole = read_whole(from)?;
    Ok(Field {
        value: whole.value as i32,
        end: whole.end,
    })
}

// Reads the field at an index as a value of a kind.
pub fn read_field(kind: Kind, from: At<'_>) -> Result<Field<i32>, Malformed>
    ensures { result ≡ field_in kind from.entry.text.now from.entry.index }
{
    match kind {
        Kind::Timer | Kind::Row => read_hundredths(from),
        Kind::Register | Kind::Signal | Kind::Port => whole_field(from),
    }
}

// The digits of a whole value: its last four. A value that has no more is passed on without a remainder, for speed (docs/SPEED.md).
fn digits_of(v: i32) -> u16
    ensures { result ≡ digits_of v }
{
    let n = v.unsigned_abs();
    if n < 10000 {
        return n as u16;
    }
    (n % 10000) as u16
}

// Writes a value of a kind.
#[tactic(auto, using(text::proofs::Digits::padded_length))]
pub fn put_field(area: &mut [u8], to: Cursor, kind: Kind, v: i32) -> Cursor
    requires { to.at + length (field_text kind v) ≤ length area.old }
    ensures { Put area.old to (field_text kind v) result area.new }
{
    match kind {
        Kind::Timer | Kind::Row => put_hundredths(area, to, v),
        Kind::Register => put_padded(area, to, digits_of(v)),
        Kind::Signal | Kind::Port => put_shortest(area, to, digits_of(v)),
    }
}
