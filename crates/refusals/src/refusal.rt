// The refusals of document 01 ("Refusal numbers, in the order checked") and of document 02.
ghost use Rattle.std.specs.Prelude.{◌≡◌};
ghost use Rattle.refusals.specs.Refusal.{number_of, refusal_number, refused_at};

// Why a call is refused, each by its number.
#[derive(Clone, Copy, Debug, PartialEq, Eq)]
pub enum Refusal {
    Room = 1,
    Length,
    Start,
    End,
    Lrc,
    Stray,
    Station,
    Absent,
    Command,
    Shape,
    Number,
    Value,
    Setup,
    Input,
    Reply,
    Empty,
    Idle,
}

impl Refusal {
    // The number that a program in C gets, and that a reply carries.
    pub fn number(self) -> u8
        ensures { result ≡ number_of self }
    {
        self as u8
    }
}

// The number of what a call came to: 0 where it was not refused.
pub fn number_in(answer: Result<(), Refusal>) -> u8
    ensures { result ≡ refusal_number answer }
{
    match answer {
        Ok(()) => 0,
        Err(refusal) => refusal.number(),
    }
}

// Why a slice is refused, and the position where it is wrong; 0 where there is none to tell, as C has it.
#[derive(Clone, Copy, Debug, PartialEq, Eq)]
pub struct Refused {
    pub refusal: Refusal,
    pub position: usize,
}

impl Refused {
    // A refusal at a position.
    pub fn at(refusal: Refusal, position: usize) -> Refused
        ensures { result ≡ refused_at refusal position }
    {
        Refused { refusal, position }
    }
}

impl From<Refusal> for Refused {
    ghost from_gives = { λ refusal refused. refused ≡ refused_at refusal 0 };

    fn from(refusal: Refusal) -> Refused {
        Refused::at(refusal, 0)
    }
}
