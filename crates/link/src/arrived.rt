// What has arrived on a line, received and served slice by slice.
ghost use Rattle.std.specs.Prelude.{◌+◌, ◌*◌, ◌<◌, ◌≤◌, length, take};
ghost use Rattle.receiver.specs.Receive.{held_in, SameState};
ghost use Rattle.tables.specs.Arms.{tables_of, SameTables};
ghost use Rattle.model.specs.Box.{box};
ghost use Rattle.link.specs.Served.{LineServed};

use gateway::serve::serve;
use receiver::receive::Receiver;
use tables::arms::Arms;

// How many bytes were taken, and where the next reply goes.
#[derive(Clone, Copy)]
pub struct Part {
    pub taken: usize,
    pub at: usize,
}

// Takes bytes until a slice is finished or none is left. A finished slice is served, and its reply, if it gets one, stands
// at `at`.
fn serve_next(
    arms: &mut Arms<'_>,
    programs: &mut [u8],
    stations: &[u8; 4],
    receiver: &mut Receiver<'_>,
    arrived: &[u8],
    out: &mut [u8],
    at: usize,
) -> Part
    requires { at + 64 ≤ length out.old }
    ensures line_served { LineServed (box stations.now (tables_of arms.old programs.old)) (held_in receiver.old.held.now receiver.old.count.now) (take result.taken arrived.now) out.old at result.at out.new (tables_of arms.new programs.new) (held_in receiver.new.held.now receiver.new.count.now) }
    ensures taken_in_bounds { (result.taken ≤ length arrived.now) × (0 < length arrived.now → 0 < result.taken) }
    ensures at_bound { result.at ≤ at + 64 }
    ensures same_tables { SameTables arms.old arms.new }
    ensures same_state { SameState receiver.old receiver.new }
{
    // Room for any slice, so that no call is refused.
    let mut slice = [0u8; 255];
    let Ok(got) = receiver.receive(arrived, &mut slice) else {
        unreachable!()
    };
    let Some(n) = got.slice else {
        return Part {
            taken: got.taken,
            at,
        };
    };
    let end = at + 64;
    let sent = serve(arms, programs, stations, &slice[..n], &mut out[at..end]);
    Part {
        taken: got.taken,
        at: at + sent.length,
    }
}

// Receives and serves all that has arrived. The replies stand at the front of `out`, one after the other; returns how many
// bytes they have. `out` has room for a reply of 64 bytes to each byte, so that no reply can lack it.
pub fn serve_arrived(
    arms: &mut Arms<'_>,
    programs: &mut [u8],
    stations: &[u8; 4],
    receiver: &mut Receiver<'_>,
    arrived: &[u8],
    out: &mut [u8],
) -> usize
    requires { 64 * length arrived.now ≤ length out.old }
    ensures line_served { LineServed (box stations.now (tables_of arms.old programs.old)) (held_in receiver.old.held.now receiver.old.count.now) arrived.now out.old 0 result out.new (tables_of arms.new programs.new) (held_in receiver.new.held.now receiver.new.count.now) }
    ensures upper_bound { result ≤ length out.new }
    ensures same_tables { SameTables arms.old arms.new }
    ensures same_state { SameState receiver.old receiver.new }
{
    let mut i = 0;
    let mut at = 0;
    // A `while`: each step takes as many bytes as its slice has. By an index, since the invariant says what the bytes before it did.
    while i < arrived.len() {
        let part = serve_next(arms, programs, stations, receiver, &arrived[i..], out, at);
        i += part.taken;
        at = part.at;
    }
    at
}
