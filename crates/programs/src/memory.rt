// The lent memory: 10,240 bytes for each of 4 slots, 40 for each of 256 steps, five texts of 8 bytes: the command, then the
// data. A text is its bytes up to the first that is no character; a step without a command was never written, and its
// data end before the first empty text. So every byte value anywhere has a meaning.
ghost use Rattle.std.specs.Prelude.{◌≡◌, ◌≤◌, ◌<◌, ◌+◌, ◌^◌, length, replicate};
ghost use Rattle.text.specs.Put.{PutAt};
ghost use Rattle.programs.specs.Memory.{size, place, bytes_of, added_to, packed_at, ended_of, stored, found, step_at};

use crate::slot::Slot;
use steps::step::Step;
use steps::texts::{Text, is_char};

// How many bytes are lent.
pub const SIZE: usize = 40960;

// The memory, of its size.
#[derive(Drop)]
pub struct Programs<'a> {
    pub bytes: &'a mut [u8],
    ghost sized: { length bytes.now ≡ 40960 },
}

// Writes the eight bytes of t, the lowest first.
fn put_packed(programs: &mut [u8], at: usize, t: Text) -> usize
    requires { at + 8 ≤ length programs.old }
    ensures { PutAt programs.old at (bytes_of t.0) result programs.new }
{
    let end = at + 8;
    programs[at..end].copy_from_slice(&t.0.to_le_bytes());
    end
}

// Where the 40 bytes of a step begin.
fn place_of(slot: Slot, n: u8) -> usize
    ensures { result ≡ place slot.index n }
{
    slot.index * 10240 + n as usize * 40
}

// n, whose lowest byte was behind b, with b before it; 0 where b is no character.
#[tactic(auto, unfolding(crate::specs::Memory::added_to))]
fn added(n: u64, b: u8) -> u64
    requires { n < 256 ^ 7 }
    ensures { result ≡ added_to n b }
{
    if is_char(b) { n * 256 + b as u64 } else { 0 }
}

// The text in the eight bytes at an index, read from the last to the first.
fn text_at(programs: &[u8], at: usize) -> Text
    requires { at + 8 ≤ length programs.now }
    ensures { result.0 ≡ packed_at programs.now at }
{
    let end = at + 8;
    let mut n: u64 = 0;
    for b in programs[at..end].iter().rev() {
        n = added(n, *b);
    }
    Text(n)
}

// The step that these five texts are: its data end before the first that is 0.
#[tactic(auto, unfolding(crate::specs::Memory::ended_of, steps::specs::Step::up_to))]
fn ended(texts: Step) -> Step
    ensures { result ≡ ended_of texts.command.0 texts.first.0 texts.second.0 texts.third.0 texts.fourth.0 }
{
    let none = Text(0);
    let mut step = texts;
    if step.first.0 == 0 {
        step.second = none;
    }
    if step.second.0 == 0 {
        step.third = none;
    }
    if step.third.0 == 0 {
        step.fourth = none;
    }
    step
}

// What stands at step n of slot's program, in a memory that is lent to be read; None where it was never written.
#[tactic(auto, using(crate::proofs::Typed::load_empty, crate::proofs::Typed::load_found))]
pub fn load_step(programs: &[u8], slot: Slot, n: u8) -> Option<Step>
    requires { length programs.now ≡ size }
    ensures { result ≡ found (step_at programs.now slot.index n) }
{
    let at = place_of(slot, n);
    let command = text_at(programs, at);
    if command.0 == 0 {
        return None;
    }
    Some(ended(Step {
        command,
        first: text_at(programs, at + 8),
        second: text_at(programs, at + 16),
        third: text_at(programs, at + 24),
        fourth: text_at(programs, at + 32),
    }))
}

impl Programs<'_> {
    // Replaces step n of slot's program: all 40 bytes are written, zeros after each text.
    pub fn store(&mut self, slot: Slot, n: u8, step: Step)
        ensures bytes_after { self.new.bytes.now ≡ stored slot.index n step self.old.bytes.now }
        ensures same_memory { self.new.bytes.ghost_name ≡ self.old.bytes.ghost_name }
    {
        let mut at = place_of(slot, n);
        for text in [
            step.command,
            step.first,
            step.second,
            step.third,
            step.fourth,
        ] {
            at = put_packed(self.bytes, at, text);
        }
    }

    // What stands at step n of slot's program; None where it was never written.
    pub fn load(&self, slot: Slot, n: u8) -> Option<Step>
        ensures { result ≡ found (step_at self.now.bytes.now slot.index n) }
    {
        load_step(self.bytes, slot, n)
    }
}

// Makes every byte 0.
pub fn clear(programs: &mut [u8])
    ensures { programs.new ≡ replicate (length programs.old) 0 }
{
    programs.fill(0);
}
