// Memory for a queue.
ghost use Rattle.std.specs.Prelude.{IfOk};
ghost use Rattle.channel.specs.Slots.{Measured};

use crate::checks::room;
use crate::slot::Slot;
use filter::FilterSize;
use std::alloc::{AllocError, Global};

// How many messages a queue keeps.
pub const SLOTS: usize = 32;

// So many slots, each as large as the largest message.
pub fn queue_memory(heap: Global, size: FilterSize) -> Result<Vec<Slot>, AllocError>
    ensures { IfOk result (λ slots. Measured size.positions slots.items) }
{
    let mut slots = Vec::with_capacity(heap, SLOTS)?;
    for _ in 0..SLOTS {
        slots.push(Slot::new(heap, room(size))?)?;
    }
    Ok(slots)
}
