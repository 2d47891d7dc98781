// The receiver, for export.
ghost use Rattle.std.specs.Prelude.{length};
ghost use Rattle.receiver.specs.Receive.{received, Received};

use receiver::receive::{Receiver, Reception};

// Takes bytes of what has arrived until a slice is finished or none is left.
pub fn llamput_receive(
    held: &mut [u8; 255],
    count: &mut u8,
    arrived: &[u8],
    area: &mut [u8],
) -> Reception
    ensures { Received (received held.old count.old arrived.now (length area.old)) area.old result held.new count.new area.new }
{
    let mut receiver = Receiver { held, count };
    receiver.receive(arrived, area).into()
}
