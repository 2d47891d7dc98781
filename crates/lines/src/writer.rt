// The line of an answer: the number, and the reply in hexadecimal capitals.
ghost use Rattle.std.specs.Prelude.{◌≡◌, ◌+◌, ◌<◌, ◌≤◌, length};
ghost use Rattle.text.specs.Put.{PutAt};
ghost use Rattle.lines.specs.Lines.{capital, hex_text, reply_text, answer_line, no_call_line};

use text::put::{Cursor, put_byte, put_bytes};
use text::whole::put_two_digits;

// The hexadecimal capital of d.
#[tactic(auto, unfolding(crate::specs::Lines::capital))]
pub fn capital_of(d: u8) -> u8
    requires { d < 16 }
    ensures { result ≡ capital d }
{
    if d < 10 {
        return d + b'0';
    }
    d - 10 + b'A'
}

// Writes the bytes of s in hexadecimal capitals.
fn put_hex(out: &mut [u8], at: usize, s: &[u8]) -> usize
    requires { at + length (hex_text s.now) ≤ length out.old }
    ensures { PutAt out.old at (hex_text s.now) result out.new }
{
    let mut p = at;
    for b in s {
        out[p] = capital_of(*b / 16);
        out[p + 1] = capital_of(*b % 16);
        p += 2;
    }
    p
}

// Writes one space and the reply; nothing where there is no reply.
fn put_reply(out: &mut [u8], at: usize, reply: &[u8]) -> usize
    requires { at + length (reply_text reply.now) ≤ length out.old }
    ensures { PutAt out.old at (reply_text reply.now) result out.new }
{
    if reply.is_empty() {
        return at;
    }
    let first = put_byte(out, Cursor { at, sum: 0 }, b' ');
    put_hex(out, first.at, reply)
}

// Writes the answer to a call.
pub fn put_answer(out: &mut [u8], at: usize, number: u8, reply: &[u8]) -> usize
    requires { at + length (answer_line number reply.now) ≤ length out.old }
    ensures { PutAt out.old at (answer_line number reply.now) result out.new }
{
    let behind = put_two_digits(out, Cursor { at, sum: 0 }, number as u16);
    let end = put_reply(out, behind.at, reply);
    put_byte(out, Cursor { at: end, sum: 0 }, b'\n').at
}

// Writes the answer to a line that is no call.
pub fn put_no_call(out: &mut [u8], at: usize) -> usize
    requires { at + 3 ≤ length out.old }
    ensures { PutAt out.old at no_call_line result out.new }
{
    put_bytes(out, Cursor { at, sum: 0 }, b"--\n").at
}
