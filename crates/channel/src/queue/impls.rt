// A queue is a channel.
ghost use Rattle.std.specs.Prelude.{◌≡◌, [], ◌∷◌, ◌++◌, length};
ghost use Rattle.channel.specs.Queues.{queued, Given};

use super::Queue;
use crate::channels::Channel;
use crate::checks::{check_letter, check_taker};
use crate::memory::SLOTS;
use crate::refusals::ChannelFault;
use filter::FilterSize;

impl Channel for Queue {
    ghost size = { λ q. q.size.positions };

    ghost waiting = { queued };

    ghost full = { λ q sent. length (queued q) ≡ 32 };

    ghost accepts = { λ q sent t. (queued t ≡ queued q ++ (sent ∷ [])) × (t.size ≡ q.size) };

    ghost gives = { λ q house answer t. Given (queued q) house answer (queued t) × (t.size ≡ q.size) };

    fn size(&self) -> FilterSize {
        self.size
    }

    fn send(&mut self, to: u32, message: &[u8]) -> Result<(), ChannelFault> {
        check_letter(self.size, to, message)?;
        if self.count == SLOTS {
            return Err(ChannelFault::Full);
        }
        self.slots[self.count].fill(to, message);
        self.count += 1;
        Ok(())
    }

    fn take(&mut self, house: u32, buffer: &mut [u8]) -> Result<Option<usize>, ChannelFault> {
        check_taker(self.size, house, buffer.len())?;
        match self.first_for(house) {
            Some(place) => Ok(Some(self.take_at(place, buffer))),
            None => Ok(None),
        }
    }
}
