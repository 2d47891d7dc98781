// The receiver: bytes taken one by one until a slice is finished.
ghost use Rattle.std.specs.Prelude.{◌≡◌, ◌≤◌, ◌<◌, length, take, Ok, IsOk, IfOk, IfSome};
ghost use Rattle.receiver.specs.Rule.{ended};
ghost use Rattle.receiver.specs.Receive.{standing, held_in, taken, took, received, Stepped, Received, SameState};
ghost use Rattle.receiver.specs.Told.{told};

use frame::{ETX, STX};
use refusals::refusal::Refusal;
use text::put::{Cursor, put_bytes};

// The state that the caller keeps, as C lends it: the bytes held of a frame that is not finished, and how many they are.
#[derive(Drop)]
pub struct Receiver<'a> {
    pub held: &'a mut [u8; 255],
    pub count: &'a mut u8,
}

// What a call came to: how many bytes were taken, and the length of the slice that was finished.
#[derive(Clone, Copy, Debug, PartialEq, Eq)]
pub struct Taken {
    pub taken: usize,
    pub slice: Option<usize>,
}

// The same as C is given it: the refusal number, or 0; how many bytes were taken; the length of the slice that was finished, 0
// for none.
#[repr(C)]
#[derive(Clone, Copy)]
pub struct Reception {
    pub number: u8,
    pub taken: usize,
    pub length: usize,
}

impl From<Result<Taken, Refusal>> for Reception {
    ghost from_gives = { λ answer reception. reception ≡ told answer };

    fn from(answer: Result<Taken, Refusal>) -> Reception {
        match answer {
            Ok(all) => Reception {
                number: 0,
                taken: all.taken,
                length: all.slice.unwrap_or(0),
            },
            Err(refusal) => Reception {
                number: refusal.number(),
                taken: 0,
                length: 0,
            },
        }
    }
}

// What a byte did: it finished a slice of so many bytes, or so many are held.
#[derive(Clone, Copy)]
pub enum Step {
    Finished(usize),
    Held(usize),
}

// How many bytes are held: a count that no call leaves means none. The last clause is the length of the array, which a
// reference in a struct leaves open.
#[tactic(auto, unfolding(crate::specs::Receive::standing))]
fn standing_of(held: &[u8; 255], count: u8) -> usize
    ensures { (result ≡ standing count) × (result < 255) × (length held.now ≡ 255) }
{
    let n = count as usize;
    if n < held.len() { n } else { 0 }
}

// Whether the n bytes held end with ETX.
#[tactic(auto, using(crate::proofs::Steps::ends_with))]
fn at_end(held: &[u8; 255], n: usize) -> bool
    requires { n < 255 }
    ensures { result ≡ ended (take n held.now) }
{
    n != 0 && held[n - 1] == ETX
}

// Takes one byte, with n bytes held: not the count that is kept, which is written once, when all is taken.
#[tactic(auto, using(crate::proofs::Steps::steps))]
fn take_byte(held: &mut [u8; 255], n: usize, b: u8) -> Step
    requires { n < 255 }
    ensures { Stepped held.old n b result held.new }
{
    if at_end(held, n) {
        held[n] = b;
        return Step::Finished(n + 1);
    }
    if b == STX {
        held[0] = STX;
        return Step::Held(1);
    }
    if n == 0 || 254 <= n {
        return Step::Held(0);
    }
    held[n] = b;
    Step::Held(n + 1)
}

impl Receiver<'_> {
    // Takes bytes until a slice is finished, which then stands at the front of the area, or none is left.
    #[tactic(auto, using(crate::proofs::Steps::at_start))]
    fn take_arrived(&mut self, arrived: &[u8], area: &mut [u8]) -> Taken
        requires { 255 ≤ length area.old }
        ensures received { Received (took (taken self.old.held.now (held_in self.old.held.now self.old.count.now) arrived.now)) area.old (told (Ok result)) self.new.held.now self.new.count.now area.new }
        ensures some { IfSome result.slice (λ n. 0 < n) }
        ensures same_state { SameState self.old self.new }
    {
        let mut n = standing_of(self.held, *self.count);
        for (i, b) in arrived.iter().enumerate() {
            match take_byte(self.held, n, *b) {
                Step::Finished(length) => {
                    put_bytes(area, Cursor { at: 0, sum: 0 }, &self.held[..length]);
                    *self.count = 0;
                    return Taken {
                        taken: i + 1,
                        slice: Some(length),
                    };
                }
                Step::Held(more) => {
                    n = more;
                }
            }
        }
        *self.count = n as u8;
        Taken {
            taken: arrived.len(),
            slice: None,
        }
    }

    // Takes bytes of what has arrived until a slice is finished or none is left. A finished slice stands at the front of the
    // area, and the rest of the area is untouched; without one the whole area is. An area under 255 bytes is refused with 1
    // ROOM: nothing is taken, and nothing changes.
    #[tactic(auto, using(crate::proofs::Steps::rooms))]
    pub fn receive(&mut self, arrived: &[u8], area: &mut [u8]) -> Result<Taken, Refusal>
        ensures received { Received (received self.old.held.now self.old.count.now arrived.now (length area.old)) area.old (told result) self.new.held.now self.new.count.now area.new }
        ensures roomy { 255 ≤ length area.old → IsOk result }
        ensures some { IfOk result (λ t. IfSome t.slice (λ n. 0 < n)) }
        ensures same_state { SameState self.old self.new }
    {
        if area.len() < 255 {
            return Err(Refusal::Room);
        }
        Ok(self.take_arrived(arrived, area))
    }
}
