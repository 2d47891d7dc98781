// The chooser: picks the port that is served next, and hands back its waiting slice.
ghost use Rattle.std.specs.Prelude.{◌≡◌, option_map};
ghost use Rattle.refusals.specs.Refusal.{refusal_number};
ghost use Rattle.chooser.specs.Turn.{buffers, pick, Picked, number_of, waiting_in, port_in, part_in};

use refusals::refusal::Refusal;

// A port of the box.
#[derive(Clone, Copy)]
pub enum Port {
    A = 1,
    B = 2,
}

impl Port {
    // The number by which a program in C, and the turn, name the port.
    pub fn number(self) -> u8
        ensures { result ≡ number_of self }
    {
        self as u8
    }
}

// The turn of a new box, in which no port was served last. The turn is a byte, as C keeps it: any other that is no port's
// number says the same.
pub const FRESH: u8 = 0;

// What a port lends: a buffer, and how many bytes of it wait. The number is C's, and may be any, so that
// whether a slice waits has to be asked.
#[derive(Clone, Copy)]
pub struct Buffer<'a> {
    pub bytes: &'a [u8],
    pub waiting: usize,
}

impl<'a> Buffer<'a> {
    // The waiting slice. A waiting length of zero, or beyond the buffer, means none.
    #[tactic(auto, unfolding(crate::specs::Turn::is_waiting))]
    pub fn slice(self) -> Option<&'a [u8]>
        ensures { option_map (λ s. s.now) result ≡ waiting_in self.entry.bytes.now self.entry.waiting }
    {
        if self.waiting == 0 {
            return None;
        }
        self.bytes.get(..self.waiting)
    }
}

// A port that is picked, and its waiting slice as it stands in its buffer.
#[derive(Clone, Copy)]
pub struct Choice<'a> {
    pub port: Port,
    pub part: &'a [u8],
}

// Picks the port that is served next: of two where a slice waits, the one not served last. The turn then keeps that port.
// Refused with 17 IDLE where neither waits: the turn stays as it was.
#[tactic(auto, unfolding(crate::specs::Turn::pick, crate::specs::Turn::port_picked, crate::specs::Turn::slice_at))]
pub fn choose<'a>(turn: &mut u8, a: Buffer<'a>, b: Buffer<'a>) -> Result<Choice<'a>, Refusal>
    ensures { Picked (pick (buffers a.entry.bytes.now a.entry.waiting b.entry.bytes.now b.entry.waiting) turn.old) (refusal_number result) (port_in result) turn.new (part_in result) }
{
    let choice = match (a.slice(), b.slice()) {
        (Some(_), Some(part)) if *turn == Port::A.number() => Choice {
            port: Port::B,
            part,
        },
        (Some(part), _) => Choice {
            port: Port::A,
            part,
        },
        (None, Some(part)) => Choice {
            port: Port::B,
            part,
        },
        (None, None) => return Err(Refusal::Idle),
    };
    *turn = choice.port.number();
    Ok(choice)
}
