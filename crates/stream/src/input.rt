// Input taken line by line, while the output has room for another answer. The functions are lent the line and the output; the
// methods of `Buffers` call them on those that it keeps.
//
// Four of them ask for that room by a clause. A type behind a `&mut` could not promise it: the answer uses it up.
ghost use Rattle.std.specs.Prelude.{◌≡◌, ◌⊎◌, ◌+◌, ◌<◌, ◌≤◌, length};
ghost use Rattle.tables.specs.Arms.{tables_of, SameTables};
ghost use Rattle.stream.specs.Cell.{Within, cell_at, cell_of, ended, finished, Took};

use crate::buffers::Buffers;
use answers::answer::answer_line;
use lines::collect::{front, take_bytes};
use tables::arms::Arms;
use text::field::At;
use text::scan::find;

// How far the program is: the bytes held of the line that has not ended, and the bytes of output that wait
// to be written.
#[derive(Clone, Copy)]
pub struct Progress {
    pub held: usize,
    pub waiting: usize,
}

// A part of a block: how many bytes were taken, and how far the program then is.
#[derive(Clone, Copy)]
pub struct Part {
    pub taken: usize,
    pub state: Progress,
}

// Answers the line that is held, which has ended.
fn end_line(
    arms: &mut Arms<'_>,
    programs: &mut [u8],
    stations: &[u8; 4],
    held: &[u8],
    out: &mut [u8],
    start: Progress,
) -> Progress
    requires within { Within held.now out.old start }
    requires waiting_bound { start.waiting + 132 ≤ 65536 }
    ensures result_after { cell_at stations.now (tables_of arms.new programs.new) held.now out.new result ≡ ended (cell_at stations.now (tables_of arms.old programs.old) held.now out.old start) }
    ensures within_after { Within held.now out.new result }
    ensures same_tables { SameTables arms.old arms.new }
{
    let line = front(held, start.held);
    let waiting = answer_line(arms, programs, stations, line, out, start.waiting);
    Progress { held: 0, waiting }
}

// Takes the bytes of input up to its first LF, which ends the line, or all of them, which are part of it.
fn take_line(
    arms: &mut Arms<'_>,
    programs: &mut [u8],
    stations: &[u8; 4],
    input: &[u8],
    held: &mut [u8],
    out: &mut [u8],
    start: Progress,
) -> Part
    requires within { Within held.old out.old start }
    requires waiting_bound { start.waiting + 132 ≤ 65536 }
    ensures took { Took (cell_at stations.now (tables_of arms.old programs.old) held.old out.old start) input.now result.taken (cell_at stations.now (tables_of arms.new programs.new) held.new out.new result.state) }
    ensures within_after { Within held.new out.new result.state }
    ensures same_tables { SameTables arms.old arms.new }
    ensures taken_nonzero { 0 < length input.now → 0 < result.taken }
{
    let n = find(At::front(input), b'\n');
    let line = Progress {
        held: take_bytes(held, start.held, front(input, n)),
        waiting: start.waiting,
    };
    if n == input.len() {
        return Part {
            taken: n,
            state: line,
        };
    }
    Part {
        taken: n + 1,
        state: end_line(arms, programs, stations, held, out, line),
    }
}

// Takes bytes of a block until it ends or the output has no room for another answer.
#[tactic(auto, unfolding(crate::specs::Cell::taken_all))]
pub fn take_block(
    arms: &mut Arms<'_>,
    programs: &mut [u8],
    stations: &[u8; 4],
    input: &[u8],
    held: &mut [u8],
    out: &mut [u8],
    start: Progress,
) -> Part
    requires { Within held.old out.old start }
    ensures took { Took (cell_at stations.now (tables_of arms.old programs.old) held.old out.old start) input.now result.taken (cell_at stations.now (tables_of arms.new programs.new) held.new out.new result.state) }
    ensures all_or_full { (result.taken ≡ length input.now) ⊎ (65404 < result.state.waiting) }
    ensures within { Within held.new out.new result.state }
    ensures same_tables { SameTables arms.old arms.new }
{
    let mut state = start;
    let mut i = 0;
    // A `while` with an index: each step takes a line, of any length, and the index is returned.
    while i < input.len() && state.waiting <= 65404 {
        let part = take_line(arms, programs, stations, &input[i..], held, out, state);
        state = part.state;
        i += part.taken;
    }
    Part { taken: i, state }
}

// Answers a last line that is not empty and has no LF.
#[tactic(auto, using(crate::proofs::Laws::finished_empty, crate::proofs::Laws::finished_more))]
pub fn answer_last(
    arms: &mut Arms<'_>,
    programs: &mut [u8],
    stations: &[u8; 4],
    held: &[u8],
    out: &mut [u8],
    start: Progress,
) -> Progress
    requires within { Within held.now out.old start }
    requires waiting_bound { start.waiting + 132 ≤ 65536 }
    ensures result_after { cell_at stations.now (tables_of arms.new programs.new) held.now out.new result ≡ finished (cell_at stations.now (tables_of arms.old programs.old) held.now out.old start) }
    ensures within_after { Within held.now out.new result }
    ensures same_tables { SameTables arms.old arms.new }
{
    if start.held == 0 {
        return start;
    }
    end_line(arms, programs, stations, held, out, start)
}

impl Buffers {
    // Takes bytes of a block until it ends or the output has no room for another answer. Returns how many were taken.
    pub fn take_block(
        &mut self,
        arms: &mut Arms<'_>,
        programs: &mut [u8],
        stations: &[u8; 4],
        input: &[u8],
    ) -> usize
        ensures took { Took (cell_of stations.now (tables_of arms.old programs.old) self.old) input.now result (cell_of stations.now (tables_of arms.new programs.new) self.new) }
        ensures all_or_full { (result ≡ length input.now) ⊎ (65404 < self.new.waiting) }
        ensures same_tables { SameTables arms.old arms.new }
    {
        let start = Progress {
            held: self.held,
            waiting: self.waiting,
        };
        let (line, output) = (&mut self.line, &mut self.output);
        let part = take_block(arms, programs, stations, input, line, output, start);
        self.held = part.state.held;
        self.waiting = part.state.waiting;
        part.taken
    }

    // Answers a last line that is not empty and has no LF.
    pub fn answer_last(&mut self, arms: &mut Arms<'_>, programs: &mut [u8], stations: &[u8; 4])
        requires { self.old.waiting + 132 ≤ 65536 }
        ensures buffers_after { cell_of stations.now (tables_of arms.new programs.new) self.new ≡ finished (cell_of stations.now (tables_of arms.old programs.old) self.old) }
        ensures same_line { self.new.line ≡ self.old.line }
        ensures same_tables { SameTables arms.old arms.new }
    {
        let start = Progress {
            held: self.held,
            waiting: self.waiting,
        };
        let (line, output) = (&self.line, &mut self.output);
        let last = answer_last(arms, programs, stations, line, output, start);
        self.held = last.held;
        self.waiting = last.waiting;
    }
}
