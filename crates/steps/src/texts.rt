// Texts of 1 to 8 characters from 21h to 7Eh. A typed text packs them into a number, the first character in the lowest
// byte; 0 is no text. Every number is a typed text, and is_text tells those that are a text.
ghost use Rattle.std.specs.Prelude.{◌≡◌, ◌≤◌, ◌+◌, length};
ghost use Rattle.text.specs.Put.{Put};
ghost use Rattle.text.specs.Scan.{field_at, end_at};
ghost use Rattle.text.specs.Read.{read_at};
ghost use Rattle.steps.specs.Text.{is_char, chars_of, is_text, read_text};

use text::field::{At, Malformed};
use text::put::{Cursor, put_byte};
use text::scan::find;

// A number, since C has it so.
#[derive(Clone, Copy)]
pub struct Text(pub u64);

// What a field is as a text, and where it ends, which is told of a malformed one too (`end_value` of `read_text`), so that it
// is no Result.
#[derive(Clone, Copy)]
pub struct TextField {
    pub text: Result<Text, Malformed>,
    pub end: usize,
}

// Whether a byte is a character of a text.
pub fn is_char(b: u8) -> bool
    ensures { result ≡ is_char b }
{
    b.is_ascii_graphic()
}

// Reads a whole field, from its last character to its first: `from_le_bytes` wants eight bytes, and a field has up to eight.
#[tactic(auto, unfolding(crate::specs::Text::read_text))]
fn read_packed(field: &[u8]) -> Option<Text>
    ensures { result ≡ read_text field.now }
{
    if field.len() < 1 || 8 < field.len() {
        return None;
    }
    let mut n: u64 = 0;
    for b in field.iter().rev() {
        if !is_char(*b) {
            return None;
        }
        n = n * 256 + *b as u64;
    }
    Some(Text(n))
}

// Reads the field at an index as a text.
pub fn read_text(from: At<'_>) -> TextField
    ensures text_value { result.text ≡ read_at from.entry.index (read_text (field_at from.entry.text.now from.entry.index)) }
    ensures end_value { result.end ≡ end_at from.entry.text.now from.entry.index }
{
    let end = find(from, b' ');
    let text = read_packed(&from.text[from.index..end]);
    TextField {
        text: text.ok_or(Malformed {
            position: from.index,
        }),
        end,
    }
}

// Whether t is a text: the characters of t are all that it holds, and there is one. By the lowest byte of what is left, as
// `only_chars` goes; over `to_le_bytes` the characters' end would be looked for first, and then the zeros behind it.
#[tactic(auto, using(crate::proofs::Laws::only_zero, crate::proofs::Laws::only_stop, crate::proofs::Laws::only_more), unfolding(crate::specs::Text::is_text))]
pub fn is_text(t: Text) -> bool
    ensures { result ≡ is_text t.0 }
{
    let mut rest = t.0;
    if rest == 0 {
        return false;
    }
    for _ in 0..8u8 {
        if rest == 0 {
            return true;
        }
        if !is_char((rest % 256) as u8) {
            return false;
        }
        rest = rest / 256;
    }
    rest == 0
}

// Writes the characters of t.
pub fn put_text(area: &mut [u8], to: Cursor, t: Text) -> Cursor
    requires { to.at + length (chars_of t.0) ≤ length area.old }
    ensures { Put area.old to (chars_of t.0) result area.new }
{
    let mut end = to;
    for b in t.0.to_le_bytes() {
        if !is_char(b) {
            return end;
        }
        end = put_byte(area, end, b);
    }
    end
}
