// The chooser, for export. An exported function cannot return a part of a caller's bytes; the length of the part stands for it,
// which begins where its port's buffer does.
ghost use Rattle.std.specs.Prelude.{◌≡◌};
ghost use Rattle.chooser.specs.Turn.{buffers, pick};
ghost use Rattle.llamput.specs.Choice.{told, Chosen};

use chooser::choose::{Buffer, choose};
use refusals::refusal::Refusal;

// What a pick comes to, as C is given it, by numbers: the refusal number, or 0; the port, 0 for none, 1 for A, 2 for B; and how
// many bytes from the start of its buffer are the slice, 0 for none.
#[repr(C)]
#[derive(Clone, Copy)]
pub struct Choice {
    pub number: u8,
    pub port: u8,
    pub length: usize,
}

impl From<Result<chooser::choose::Choice<'_>, Refusal>> for Choice {
    ghost from_gives = { λ answer choice. choice ≡ told answer };

    fn from(answer: Result<chooser::choose::Choice<'_>, Refusal>) -> Choice {
        match answer {
            Ok(choice) => Choice {
                number: 0,
                port: choice.port.number(),
                length: choice.part.len(),
            },
            Err(refusal) => Choice {
                number: refusal.number(),
                port: 0,
                length: 0,
            },
        }
    }
}

// Picks the port that is served next.
pub fn llamput_choose<'a>(
    turn: &mut u8,
    a: &'a [u8],
    waiting_a: usize,
    b: &'a [u8],
    waiting_b: usize,
) -> Choice
    ensures { Chosen (pick (buffers a.now waiting_a b.now waiting_b) turn.old) result turn.new }
{
    let a = Buffer {
        bytes: a,
        waiting: waiting_a,
    };
    let b = Buffer {
        bytes: b,
        waiting: waiting_b,
    };
    choose(turn, a, b).into()
}
