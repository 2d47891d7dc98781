// Standard input, and its lines.
ghost use Rattle.std.specs.Prelude.{◌≤◌};

use crate::front;

// The descriptor of standard input.
pub const STDIN_FILENO: i32 = 0;

// The bytes of a line that has not ended, as far as there is room for them.
#[derive(Drop)]
struct Held<const N: usize> {
    bytes: [u8; N],
    count: usize,
    ghost in_bounds: { count ≤ N },
}

impl<const N: usize> Held<N> {
    fn new() -> Held<N> {
        Held {
            bytes: [0; N],
            count: 0,
        }
    }

    // Takes a byte. LF ends the line, which is handed out, and any other byte is part of it.
    fn take(&mut self, b: u8) -> Option<&[u8]> {
        let n = self.count;
        if b == b'\n' {
            self.count = 0;
            return Some(front(&self.bytes, n));
        }
        if n < N {
            self.bytes[n] = b;
            self.count = n + 1;
        }
        None
    }
}

// Calls `answer` with each line of standard input, of a longer one with its first N bytes. A last one without LF counts if it is
// not empty. A proved loop has to end, and nothing says that the input does, so the blocks are counted up to a number that no run
// reaches.
pub fn each_line<const N: usize, F: FnMut(&[u8])>(mut answer: F)
    requires small { N ≤ 65536 }
    requires callable { F.IsAlwaysCallable answer }
{
    let mut input = io::large_buffer();
    let mut held = Held::<N>::new();
    for _ in 0..u64::MAX {
        let got = io::read_full(STDIN_FILENO, &mut input);
        if got == 0 {
            break;
        }
        for b in front(&input, got) {
            if let Some(line) = held.take(*b) {
                answer(line);
            }
        }
    }
    if 0 < held.count {
        answer(front(&held.bytes, held.count));
    }
}
