// The plain queue.
ghost use Rattle.std.specs.Prelude.{◌≤◌, length};
ghost use Rattle.channel.specs.Letters.{Letter, Waits, Fitting};
ghost use Rattle.channel.specs.Slots.{letters, Measured};

use crate::slot::Slot;
use filter::FilterSize;

mod impls;
mod methods;

// Keeps up to 32 messages in order, and loses none. The waiting ones stand in the first slots, oldest first, with their count beside them: the other slots are kept for later messages, and a second `Vec` for them would be memory to allocate.
#[derive(Drop)]
pub struct Queue {
    size: FilterSize,
    slots: Vec<Slot>,
    count: usize,
    ghost measured: { Measured size.positions slots.items },
    ghost most: { count ≤ 32 },
    ghost fitting: { (x : Letter) → Waits (letters count slots.items) x → Fitting size.positions (length x.octets) },
}
