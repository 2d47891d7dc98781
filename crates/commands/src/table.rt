// The table of documents 01 and 02 that gives each command's data and the range of its number (that of LND as E2 has it).
ghost use Rattle.std.specs.Prelude.{◌≡◌};
ghost use Rattle.commands.specs.Table.{loads, stores, rule_of};

use names::command::Command;

// What numbers as data are: a timer's or a register's value, an offset row, one signal or a port of eight.
#[derive(Clone, Copy, PartialEq, Eq)]
pub enum Kind {
    Timer,
    Register,
    Row,
    Signal,
    Port,
}

// What a command's data are: numbers of a kind, or the texts of a step.
#[derive(Clone, Copy, PartialEq, Eq)]
pub enum Form {
    Numbers(Kind),
    Texts,
}

// A row of the table: whether the command stores (SN) or loads (LN), its data, and its first and last number.
#[derive(Clone, Copy)]
pub struct Rule {
    pub store: bool,
    pub form: Form,
    pub first: u16,
    pub last: u16,
}

// An LN: no data are given, and data of this form are replied.
fn loads(form: Form, first: u16, last: u16) -> Rule
    ensures { result ≡ loads form first last }
{
    Rule {
        store: false,
        form,
        first,
        last,
    }
}

// Its SN: data of that form are given, under the same numbers.
fn stores(ln: Rule) -> Rule
    ensures { result ≡ stores ln }
{
    Rule { store: true, ..ln }
}

// A command's row of the table.
pub fn rule_of(command: Command) -> Rule
    ensures { result ≡ rule_of command }
{
    match command {
        Command::Lnt => loads(Form::Numbers(Kind::Timer), 0, 15),
        Command::Snt => stores(loads(Form::Numbers(Kind::Timer), 0, 15)),
        Command::Lnd => loads(Form::Numbers(Kind::Register), 0, 63),
        Command::Snd => stores(loads(Form::Numbers(Kind::Register), 0, 63)),
        Command::Lnl => loads(Form::Numbers(Kind::Row), 0, 99),
        Command::Snl => stores(loads(Form::Numbers(Kind::Row), 0, 99)),
        Command::Lnib => loads(Form::Numbers(Kind::Signal), 0, 255),
        Command::Lnob => loads(Form::Numbers(Kind::Signal), 0, 255),
        Command::Snob => stores(loads(Form::Numbers(Kind::Signal), 0, 255)),
        Command::Lnid => loads(Form::Numbers(Kind::Port), 0, 31),
        Command::Lnod => loads(Form::Numbers(Kind::Port), 0, 31),
        Command::Snod => stores(loads(Form::Numbers(Kind::Port), 0, 31)),
        Command::Lnbb => loads(Form::Numbers(Kind::Signal), 256, 383),
        Command::Snbb => stores(loads(Form::Numbers(Kind::Signal), 256, 383)),
        Command::Lnbd => loads(Form::Numbers(Kind::Port), 0, 15),
        Command::Snbd => stores(loads(Form::Numbers(Kind::Port), 0, 15)),
        Command::Lna => loads(Form::Texts, 0, 255),
        Command::Sna => stores(loads(Form::Texts, 0, 255)),
    }
}
