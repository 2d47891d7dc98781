// The next slice of two ports, served.
ghost use Rattle.std.specs.Prelude.{◌≡◌};
ghost use Rattle.chooser.specs.Turn.{buffers};
ghost use Rattle.tables.specs.Arms.{tables_of, SameTables};
ghost use Rattle.model.specs.Box.{box};
ghost use Rattle.hosts.specs.Next.{NextServed};
ghost use Rattle.hosts.specs.Told.{told};

use chooser::choose::{Buffer, Port, choose};
use gateway::serve::{has_room, serve_told};
use harl::message::Sent;
use programs::memory::Programs;
use refusals::refusal::{Refusal, Refused};
use tables::arms::Arms;

// A port that was served, and what serving its slice returned.
#[derive(Clone, Copy)]
pub struct ServedPort {
    pub port: Port,
    pub sent: Sent,
}

// What a call comes to as C is given it: the port that was served, 0 for none, 1 for A, 2 for B; and what serving its slice
// returned, or the refusal.
#[repr(C)]
#[derive(Clone, Copy)]
pub struct Next {
    pub port: u8,
    pub sent: Sent,
}

impl From<Result<ServedPort, Refusal>> for Next {
    ghost from_gives = { λ answer next. next ≡ told answer };

    fn from(answer: Result<ServedPort, Refusal>) -> Next {
        match answer {
            Ok(served) => Next {
                port: served.port.number(),
                sent: served.sent,
            },
            Err(refusal) => Next {
                port: 0,
                sent: Refused::at(refusal, 0).into(),
            },
        }
    }
}

// Picks the port whose turn it is, and serves its waiting slice. Refused with 17 IDLE, before all other checks, where neither
// waits: then nothing changes. A slice that serving refuses has used its turn.
#[tactic(auto, using(chooser::proofs::Picks::none_idle), unfolding(model::specs::Box::decide, model::specs::Box::answer, model::specs::Box::after, model::specs::Box::perform, model::specs::Box::respond, model::specs::Box::has_room))]
pub fn serve_next<'a>(
    arms: &mut Arms<'_>,
    programs: &mut [u8],
    stations: &[u8; 4],
    turn: &mut u8,
    a: Buffer<'a>,
    b: Buffer<'a>,
    reply: &mut [u8],
) -> Result<ServedPort, Refusal>
    ensures served { NextServed (box stations.now (tables_of arms.old programs.old)) turn.old (buffers a.entry.bytes.now a.entry.waiting b.entry.bytes.now b.entry.waiting) reply.old (told result) turn.new (tables_of arms.new programs.new) reply.new }
    ensures same_tables { SameTables arms.old arms.new }
{
    let choice = choose(turn, a, b)?;
    let port = choice.port;
    if !has_room(programs, reply) {
        return Ok(ServedPort {
            port,
            sent: Refused::at(Refusal::Room, 0).into(),
        });
    }
    let mut lent = Programs { bytes: programs };
    let mut length = 0;
    let told = serve_told(arms, &mut lent, stations, choice.part, reply, &mut length);
    let sent = Sent {
        number: told.number,
        length,
        position: told.position,
    };
    Ok(ServedPort { port, sent })
}
