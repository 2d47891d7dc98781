// The fields of data, read and written from left to right.
ghost use Rattle.std.specs.Prelude.{◌≡◌, ◌≤◌, ◌+◌, length};
ghost use Rattle.text.specs.Put.{Put};
ghost use Rattle.numbers.specs.Numbers.{numbers_at, numbers_text};

use crate::field::{put_field, read_field};
use crate::ranges::count_of;
use commands::request::Row;
use commands::table::Kind;
use text::field::{At, Malformed};
use text::put::{Cursor, put_byte};

// Reads the fields from an index on as data of a kind. Not data: at the first malformed field; if all are in their form, at
// the first surplus field, or at the end of the text where fields lack.
pub fn read_numbers(kind: Kind, from: At<'_>) -> Result<Row, Malformed>
    ensures { result ≡ numbers_at kind from.entry.text.now from.entry.index }
{
    let text = from.text;
    let mut values = [0; 4];
    let mut next = from.index;
    // By its index: of what is written through `iter_mut`, no element is known.
    for i in 0..count_of(kind) {
        if text.len() < next {
            return Err(Malformed {
                position: text.len(),
            });
        }
        let field = read_field(kind, At { text, index: next })?;
        values[i] = field.value;
        next = field.end + 1;
    }
    if next <= text.len() {
        return Err(Malformed { position: next });
    }
    Ok(Row::from(values))
}

// Writes data of a kind.
pub fn put_numbers(area: &mut [u8], to: Cursor, kind: Kind, row: Row) -> Cursor
    requires { to.at + length (numbers_text kind row) ≤ length area.old }
    ensures { Put area.old to (numbers_text kind row) result area.new }
{
    let values: [i32; 4] = row.into();
    let mut end = put_field(area, to, kind, values[0]);
    for v in &values[1..count_of(kind)] {
        let from = put_byte(area, end, b' ');
        end = put_field(area, from, kind, *v);
    }
    end
}
