// The names of the commands: sixteen of document 01, LNA and SNA of document 02 (E3). They are compared and written as
// fixed byte strings.
ghost use Rattle.std.specs.Prelude.{◌≡◌, ◌≤◌, ◌+◌, length, IfSome, unwrap_or};
ghost use Rattle.text.specs.Put.{Put};
ghost use Rattle.text.specs.Read.{field_with};
ghost use Rattle.names.specs.Command.{name_of, command_of, name_end};

use text::field::{At, Field};
use text::put::{Cursor, put_bytes};
use text::scan::is_end;

// A command, by its name.
#[derive(Clone, Copy)]
pub enum Command {
    Lnt,
    Snt,
    Lnd,
    Snd,
    Lnl,
    Snl,
    Lnib,
    Lnob,
    Snob,
    Lnid,
    Lnod,
    Snod,
    Lnbb,
    Snbb,
    Lnbd,
    Snbd,
    Lna,
    Sna,
}

// Every command, in the order of the codes by which a program in C names them (`CommandsListed` of specs/Command.antt).
pub const COMMANDS: [Command; 18] = [
    Command::Lnt,
    Command::Snt,
    Command::Lnd,
    Command::Snd,
    Command::Lnl,
    Command::Snl,
    Command::Lnib,
    Command::Lnob,
    Command::Snob,
    Command::Lnid,
    Command::Lnod,
    Command::Snod,
    Command::Lnbb,
    Command::Snbb,
    Command::Lnbd,
    Command::Snbd,
    Command::Lna,
    Command::Sna,
];

// A command's name.
#[tactic(auto, unfolding(crate::specs::Command::name_of))]
pub fn name_of(command: Command) -> &'static [u8]
    ensures { result.now ≡ name_of command }
{
    match command {
        Command::Lnt => b"LNT",
        Command::Snt => b"SNT",
        Command::Lnd => b"LND",
        Command::Snd => b"SND",
        Command::Lnl => b"LNL",
        Command::Snl => b"SNL",
        Command::Lnib => b"LNIB",
        Command::Lnob => b"LNOB",
        Command::Snob => b"SNOB",
        Command::Lnid => b"LNID",
        Command::Lnod => b"LNOD",
        Command::Snod => b"SNOD",
        Command::Lnbb => b"LNBB",
        Command::Snbb => b"SNBB",
        Command::Lnbd => b"LNBD",
        Command::Snbd => b"SNBD",
        Command::Lna => b"LNA",
        Command::Sna => b"SNA",
    }
}

// The command that a name is.
#[tactic(auto, using(crate::proofs::Names::letters), unfolding(crate::specs::Command::command_of, crate::specs::Command::among, crate::specs::Command::same, crate::specs::Command::name_of))]
fn command_of(name: &[u8]) -> Option<Command>
    ensures { result ≡ command_of name.now }
{
    match name {
        b"LNT" => Some(Command::Lnt),
        b"SNT" => Some(Command::Snt),
        b"LND" => Some(Command::Lnd),
        b"SND" => Some(Command::Snd),
        b"LNL" => Some(Command::Lnl),
        b"SNL" => Some(Command::Snl),
        b"LNIB" => Some(Command::Lnib),
        b"LNOB" => Some(Command::Lnob),
        b"SNOB" => Some(Command::Snob),
        b"LNID" => Some(Command::Lnid),
        b"LNOD" => Some(Command::Lnod),
        b"SNOD" => Some(Command::Snod),
        b"LNBB" => Some(Command::Lnbb),
        b"SNBB" => Some(Command::Snbb),
        b"LNBD" => Some(Command::Lnbd),
        b"SNBD" => Some(Command::Snbd),
        b"LNA" => Some(Command::Lna),
        b"SNA" => Some(Command::Sna),
        _ => None,
    }
}

// Where a name of three or four letters ends, at SP or at the end of s.
fn name_end(s: &[u8]) -> Option<usize>
    ensures value { unwrap_or result 0 ≡ name_end s.now }
    ensures upper_bound { IfSome result (λ n. n ≤ length s.now) }
{
    if s.len() < 3 {
        return None;
    }
    if is_end(At { text: s, index: 3 }) {
        return Some(3);
    }
    if is_end(At { text: s, index: 4 }) {
        return Some(4);
    }
    None
}

// Reads the name at the front of a body, in its place, and where it ends; None where it is no command's.
pub fn read_name(s: &[u8]) -> Option<Field<Command>>
    ensures name_value { result ≡ field_with command_of s.now 0 }
    ensures end_in_bounds { IfSome result (λ f. f.end ≤ length s.now) }
{
    let end = name_end(s)?;
    let value = command_of(&s[..end])?;
    Some(Field { value, end })
}

// Writes a command's name.
pub fn put_name(area: &mut [u8], to: Cursor, command: Command) -> Cursor
    requires { to.at + length (name_of command) ≤ length area.old }
    ensures { Put area.old to (name_of command) result area.new }
{
    put_bytes(area, to, name_of(command))
}
