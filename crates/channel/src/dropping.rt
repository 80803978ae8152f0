// A layer that loses messages.
ghost use Rattle.std.specs.Prelude.{◌≡◌, false};
ghost use Rattle.channel.specs.Cycles.{start, due, next};
ghost use Rattle.channel.specs.Layers.{Dropped};

use crate::channels::Channel;
use crate::checks::check_letter;
use crate::cycle::Cycle;
use crate::refusals::ChannelFault;
use filter::FilterSize;

// Accepts each n-th message without passing it on to the channel below.
#[derive(Drop)]
pub struct Dropping<C> {
    below: C,
    cycle: Cycle,
}

impl<C: Channel> Dropping<C> {
    // A layer over a channel; no message is lost where n is 0. Layers have a type each: what they make of the channel below differs.
    pub fn new(below: C, n: u8) -> Dropping<C>
        ensures { (result.below ≡ below) × (result.cycle ≡ start n) }
    {
        Dropping {
            below,
            cycle: Cycle::new(n),
        }
    }
}

impl<C: Channel> Channel for Dropping<C> {
    ghost size = { λ s. C.Channel.size s.below };

    ghost waiting = { λ s. C.Channel.waiting s.below };

    ghost full = { λ s sent. (due s.cycle ≡ false) × C.Channel.full s.below sent };

    ghost accepts = { λ s sent t. Dropped C.Channel (due s.cycle) s.below sent t.below × (t.cycle ≡ next s.cycle) };

    ghost gives = { λ s house answer t. C.Channel.gives s.below house answer t.below × (t.cycle ≡ s.cycle) };

    fn size(&self) -> FilterSize {
        self.below.size()
    }

    fn send(&mut self, to: u32, message: &[u8]) -> Result<(), ChannelFault> {
        if self.cycle.is_due() {
            check_letter(self.below.size(), to, message)?;
        } else {
            self.below.send(to, message)?;
        }
        self.cycle = self.cycle.next();
        Ok(())
    }

    fn take(&mut self, house: u32, buffer: &mut [u8]) -> Result<Option<usize>, ChannelFault> {
        self.below.take(house, buffer)
    }
}
