// What the program keeps of its input and output, in fixed memory of its own.
ghost use Rattle.std.specs.Prelude.{◌≡◌, ◌≤◌};

// The line that has not ended, of which so many bytes are held, and the output, of which so many bytes wait to be written.
#[derive(Drop)]
pub struct Buffers {
    pub line: [u8; 513],
    pub held: usize,
    pub output: [u8; 65536],
    pub waiting: usize,
    ghost held_fits: { held ≤ 513 },
    ghost waiting_fits: { waiting ≤ 65536 },
}

impl Buffers {
    // No line and no output.
    pub fn empty() -> Buffers
        ensures { (result.held ≡ 0) × (result.waiting ≡ 0) }
    {
        Buffers {
            line: [0; 513],
            held: 0,
            output: [0; 65536],
            waiting: 0,
        }
    }
}
