// A layer that doubles messages.
ghost use Rattle.std.specs.Prelude.{◌≡◌};
ghost use Rattle.channel.specs.Cycles.{start, due, next};
ghost use Rattle.channel.specs.Layers.{Repeated};

use crate::channels::Channel;
use crate::cycle::Cycle;
use crate::refusals::ChannelFault;
use filter::FilterSize;

// Sends each n-th accepted message twice to the channel below.
#[derive(Drop)]
pub struct Repeating<C> {
    below: C,
    cycle: Cycle,
}

impl<C: Channel> Repeating<C> {
    // A layer over a channel; no message is doubled where n is 0. Layers have a type each: what they make of the channel below differs.
    pub fn new(below: C, n: u8) -> Repeating<C>
        ensures { (result.below ≡ below) × (result.cycle ≡ start n) }
    {
        Repeating {
            below,
            cycle: Cycle::new(n),
        }
    }
}

impl<C: Channel> Channel for Repeating<C> {
    ghost size = { λ s. C.Channel.size s.below };

    ghost waiting = { λ s. C.Channel.waiting s.below };

    ghost full = { λ s sent. C.Channel.full s.below sent };

    ghost accepts = { λ s sent t. Repeated C.Channel (due s.cycle) s.below sent t.below × (t.cycle ≡ next s.cycle) };

    ghost gives = { λ s house answer t. C.Channel.gives s.below house answer t.below × (t.cycle ≡ s.cycle) };

    fn size(&self) -> FilterSize {
        self.below.size()
    }

    fn send(&mut self, to: u32, message: &[u8]) -> Result<(), ChannelFault> {
        self.below.send(to, message)?;
        if self.cycle.is_due() {
            let _ = self.below.send(to, message);
        }
        self.cycle = self.cycle.next();
        Ok(())
    }

    fn take(&mut self, house: u32, buffer: &mut [u8]) -> Result<Option<usize>, ChannelFault> {
        self.below.take(house, buffer)
    }
}
