// Serves the lines of standard input as `cell` does, and prints behind each answer the position in the slice that
// comes with it (document 02, E9). The stored output did not come from this program.
#![tactic(auto)]

use gateway::serve::serve;
use lines::reader::read_line;
use lines::writer::put_answer;
use owned::arrays::Tables;
use print::input::each_line;
use print::{Text, front, show, show_bytes};
use slots::setup::setup;
use tables::arms::Arms;

// Serves a line, and prints its answer as `cell` does, with the position before its LF. A line that is no call has
// none.
fn answer_line(
    rt: &impl Print,
    arms: &mut Arms<'_>,
    programs: &mut [u8],
    stations: &[u8; 4],
    line: &[u8],
) {
    let mut slice = [0u8; 256];
    let Some(n) = read_line(line, &mut slice) else {
        show_bytes(rt, b"--\n");
        return;
    };
    let mut reply = [0u8; 64];
    let sent = serve(arms, programs, stations, front(&slice, n), &mut reply);
    let length = sent.length;
    let mut out = [0u8; 132];
    let end = put_answer(&mut out, 0, sent.number, &reply[..length]);
    let answer = Text(front(&out, end - 1));
    show(rt, format_args!("{answer} @{}\n", sent.position));
}

// Sets up stations 1 to 4, and answers every line of standard input. A line over 512 digits is no call, whatever follows.
fn main(rt: HostRuntime) {
    let mut tables = Tables::filled(0);
    let mut arms = tables.arms();
    let mut programs = [0u8; 40960];
    let mut stations = [0u8; 4];
    let mut turn = 0;
    let want = [1, 2, 3, 4];
    let set_up = setup(&mut arms, &mut programs, &mut stations, &mut turn, want);
    if set_up.is_err() {
        return;
    }
    each_line::<513, _>(|line| answer_line(&rt, &mut arms, &mut programs, &stations, line));
}
