// Reads lines from standard input, each the hexadecimal capitals of one slice, and answers each by a line.
// Both come and go in blocks, so that any number of lines is answered in the same memory. What is done
// between reading and writing is the crate `stream`.
#![tactic(auto)]

ghost use Rattle.std.specs.Prelude.{◌≡◌, ◌⊎◌, ◌+◌, ◌≤◌, length};
ghost use Rattle.tables.specs.Arms.{tables_of, SameTables};
ghost use Rattle.stream.specs.Cell.{cell_of};
ghost use Rattle.cell.specs.Block.{BlockTaken};

use crate::ready::Ready;
use lines::collect::front;
use owned::arrays::Tables;
use slots::setup::setup;
use std::io::Read;
use stream::buffers::Buffers;
use tables::arms::Arms;

mod ready; // ready.rt: buffers that take another answer

// The descriptor of standard output.
const STDOUT_FILENO: i32 = 1;

// Writes the waiting bytes out where fewer than 132 are free, which the longest answer has. Returns how many
// bytes then wait.
fn make_room(out: &[u8], at: usize) -> usize
    requires { at ≤ length out.now }
    ensures { ((result ≡ at) ⊎ (result ≡ 0)) × (result + 132 ≤ 65536) }
{
    if at <= 65404 {
        return at;
    }
    io::write_all(STDOUT_FILENO, front(out, at));
    0
}

// Takes a block of input in parts, and writes the output out where it has no room for another answer.
fn answer_block(
    arms: &mut Arms<'_>,
    programs: &mut [u8],
    stations: &[u8; 4],
    input: &[u8],
    ready: &mut Ready,
)
    ensures block_taken { BlockTaken (cell_of stations.now (tables_of arms.old programs.old) ready.old.buffers) input.now (cell_of stations.now (tables_of arms.new programs.new) ready.new.buffers) }
    ensures same_tables { SameTables arms.old arms.new }
{
    let mut rest = input;
    while !rest.is_empty() {
        let buffers = &mut ready.buffers;
        let taken = buffers.take_block(arms, programs, stations, rest);
        buffers.waiting = make_room(&buffers.output, buffers.waiting);
        rest = &rest[taken..];
    }
}

// Reads a block of input, and returns how many bytes came: none at the input's end, which `read` itself calls 0, and none where
// reading fails. An Option is no plainer: no more comes in either case, and what came is answered.
fn read_block(rt: &HostRuntime, input: &mut [u8]) -> usize
    ensures { result ≤ length input.new }
{
    rt.stdin().read(input).unwrap_or(0)
}

// Answers every line of standard input that has ended. A proved loop has to end, and nothing says that the
// input does, so the blocks are counted up to a number that no run reaches.
fn answer_blocks(
    rt: &HostRuntime,
    arms: &mut Arms<'_>,
    programs: &mut [u8],
    stations: &[u8; 4],
    input: &mut [u8],
    ready: &mut Ready,
) {
    for _ in 0..u64::MAX {
        let n = read_block(rt, input);
        if n == 0 {
            return;
        }
        answer_block(arms, programs, stations, front(input, n), ready);
    }
}

// Answers every line of standard input on tables that are set up, also a last line that is not empty and has no LF, and
// writes all that waits.
fn answer_all(rt: &HostRuntime, arms: &mut Arms<'_>, programs: &mut [u8], stations: &[u8; 4]) {
    let mut input = io::large_buffer();
    let mut ready = Ready {
        buffers: Buffers::empty(),
    };
    answer_blocks(rt, arms, programs, stations, &mut input, &mut ready);
    let buffers = &mut ready.buffers;
    buffers.answer_last(arms, programs, stations);
    io::write_all(STDOUT_FILENO, front(&buffers.output, buffers.waiting));
}

// Sets up stations 1 to 4, and answers.
fn main(rt: HostRuntime) {
    let mut tables = Tables::filled(0);
    let mut arms = tables.arms();
    let mut programs = [0u8; 40960];
    let mut stations = [0u8; 4];
    let mut turn = 0;
    let set_up = setup(
        &mut arms,
        &mut programs,
        &mut stations,
        &mut turn,
        [1, 2, 3, 4],
    );
    if set_up.is_ok() {
        answer_all(&rt, &mut arms, &mut programs, &stations);
    }
}
