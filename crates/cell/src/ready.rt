// Buffers that take another answer.
ghost use Rattle.std.specs.Prelude.{◌+◌, ◌≤◌};

use stream::buffers::Buffers;

// The output has room for the longest answer, which has 132 bytes.
#[derive(Drop)]
pub struct Ready {
    pub buffers: Buffers,
    ghost room: { buffers.waiting + 132 ≤ 65536 },
}
