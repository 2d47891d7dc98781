// One line answered: the call that it is served, and the line of the answer put behind the output that waits.
ghost use Rattle.std.specs.Prelude.{◌+◌, ◌≤◌, length};
ghost use Rattle.tables.specs.Arms.{tables_of, SameTables};
ghost use Rattle.model.specs.Box.{box};
ghost use Rattle.answers.specs.Answers.{CallAnswered, LineAnswered};

use gateway::serve::serve;
use lines::reader::read_line;
use lines::writer::{put_answer, put_no_call};
use tables::arms::Arms;

// Serves one call, and puts the line of its answer at `at`. Returns the next place.
fn answer_call(
    arms: &mut Arms<'_>,
    programs: &mut [u8],
    stations: &[u8; 4],
    slice: &[u8],
    out: &mut [u8],
    at: usize,
) -> usize
    requires { at + 132 ≤ length out.old }
    ensures answered { CallAnswered (box stations.now (tables_of arms.old programs.old)) slice.now out.old at result out.new (tables_of arms.new programs.new) }
    ensures same_tables { SameTables arms.old arms.new }
{
    let mut reply = [0u8; 64];
    let sent = serve(arms, programs, stations, slice, &mut reply);
    let length = sent.length;
    put_answer(out, at, sent.number, &reply[..length])
}

// Answers one line at `at`, where the longest answer has room: two digits, a space, a reply of 64 bytes, LF.
// Returns the next place.
pub fn answer_line(
    arms: &mut Arms<'_>,
    programs: &mut [u8],
    stations: &[u8; 4],
    line: &[u8],
    out: &mut [u8],
    at: usize,
) -> usize
    requires { at + 132 ≤ length out.old }
    ensures answered { LineAnswered (box stations.now (tables_of arms.old programs.old)) line.now out.old at result out.new (tables_of arms.new programs.new) }
    ensures same_tables { SameTables arms.old arms.new }
{
    let mut slice = [0u8; 256];
    match read_line(line, &mut slice) {
        Some(n) => answer_call(arms, programs, stations, &slice[..n], out, at),
        None => put_no_call(out, at),
    }
}
