// The typed requests of the examples, each by a letter.
use crate::typed_steps::step_of;
use commands::request::{Load, Port, Request, Row, Signal, Store};
use harl::message::Asked;

fn load(station: u8, load: Load) -> Asked {
    Asked {
        station,
        request: Request::Load(load),
    }
}

fn store(station: u8, store: Store) -> Asked {
    Asked {
        station,
        request: Request::Store(store),
    }
}

fn row(x: i32, y: i32, z: i32, w: i32) -> Asked {
    store(1, Store::Row(0, Row { x, y, z, w }))
}

// Small letters: requests for steps, an SNA of step 7 with the step of that letter unless another is given.
fn step_asked(letter: u8) -> Asked {
    match letter {
        // The longest request.
        b'e' => store(99, Store::Step(255, step_of(letter))),
        // Replies answer these.
        b't' => load(1, Load::Step(7)),
        b'u' => load(99, Load::Step(255)),
        // Check 11 refuses these, the last of them before check 12.
        b'v' => load(1, Load::Step(256)),
        b'w' => store(1, Store::Step(256, step_of(b'a'))),
        b'x' => store(1, Store::Step(256, step_of(b's'))),
        // Step 0.
        b'y' => load(1, Load::Step(0)),
        b'z' => store(1, Store::Step(0, step_of(b'a'))),
        _ => store(1, Store::Step(7, step_of(letter))),
    }
}

pub fn asked_of(letter: u8) -> Asked {
    if b'a' <= letter {
        return step_asked(letter);
    }
    match letter {
        // P2.
        b'A' => store(2, Store::Register(63, 42)),
        // Checks 7, 11 and 12 refuse these.
        b'B' => load(0, Load::Timer(16)),
        b'C' => load(100, Load::Timer(5)),
        b'D' => load(1, Load::Timer(16)),
        b'E' => load(1, Load::MemoryBit(Signal(255))),
        b'F' => store(1, Store::OutputPort(Port(32), 256)),
        b'W' => load(1, Load::Register(64)),
        b'G' => store(1, Store::Timer(0, 1000)),
        b'H' => store(1, Store::Timer(0, -1)),
        // Replies of each kind answer these.
        b'I' => load(1, Load::Timer(5)),
        b'J' => load(2, Load::Register(63)),
        b'K' => load(3, Load::Row(99)),
        b'L' => load(4, Load::Input(Signal(255))),
        b'M' => load(5, Load::OutputPort(Port(31))),
        b'N' => store(1, Store::Timer(0, 0)),
        // The ends of the stations, and one beyond.
        b'P' => load(1, Load::Timer(0)),
        b'Q' => load(99, Load::Timer(15)),
        // The ends of data, and one beyond, which no text in its form can give.
        b'R' => store(1, Store::Register(0, 9999)),
        b'S' => store(1, Store::Register(0, 10000)),
        b'T' => row(999999, -999999, 999999, -999999),
        b'U' => row(1000000, 0, 0, 0),
        b'V' => row(0, -1000000, 0, 0),
        b'X' => row(0, 0, 1000000, 0),
        b'Y' => row(0, 0, 0, -1000000),
        // Check 7 refuses this.
        _ => load(0, Load::Timer(5)),
    }
}
