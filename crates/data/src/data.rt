// Data of either form, read and written.
ghost use Rattle.std.specs.Prelude.{◌≡◌, ◌≤◌, ◌+◌, length};
ghost use Rattle.text.specs.Put.{Put};
ghost use Rattle.data.specs.Data.{data_with, data_in, data_text};

use commands::request::{Payload, Row, row_in, step_in};
use commands::table::Form;
use numbers::numbers::{put_numbers, read_numbers};
use steps::step::{Step, put_step, read_step};
use text::field::{At, Malformed};
use text::put::Cursor;

// What fields are as data. Texts stand beside the enum, in a step that the caller lends, so that no numbers are copied with room
// for them (docs/SPEED.md).
#[derive(Clone, Copy)]
pub enum DataRead {
    Numbers(Row),
    Texts,
}

// Reads the fields from an index on as data of a form. Not data: at the first malformed field; if all are in their form, at
// the first surplus field, or at the end of the text where fields lack.
pub fn read_data(form: Form, from: At<'_>, step: &mut Step) -> Result<DataRead, Malformed>
    ensures { data_with step.new result ≡ data_in form from.entry.text.now from.entry.index }
{
    match form {
        Form::Numbers(kind) => Ok(DataRead::Numbers(read_numbers(kind, from)?)),
        Form::Texts => {
            *step = read_step(from)?;
            Ok(DataRead::Texts)
        }
    }
}

// Writes data of a form.
pub fn put_data(area: &mut [u8], to: Cursor, form: Form, payload: Payload) -> Cursor
    requires { to.at + length (data_text form payload) ≤ length area.old }
    ensures { Put area.old to (data_text form payload) result area.new }
{
    match form {
        Form::Numbers(kind) => put_numbers(area, to, kind, row_in(payload)),
        Form::Texts => put_step(area, to, step_in(payload)),
    }
}
