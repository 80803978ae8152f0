// A layer that reorders messages.
ghost use Rattle.std.specs.Prelude.{◌≡◌, length, MatchResult};
ghost use Rattle.channel.specs.Cycles.{start, due, next};
ghost use Rattle.channel.specs.Layers.{SentBack, Turned};
ghost use Rattle.channel.specs.Letters.{Takeable, NoneNew};
ghost use Rattle.channel.specs.Refused.{WhyUntaken};

use crate::channels::Channel;
use crate::cycle::Cycle;
use crate::refusals::ChannelFault;
use filter::FilterSize;

// Before each n-th accepted taking, sends the next message for the house back to the channel below.
#[derive(Drop)]
pub struct Turning<C> {
    below: C,
    cycle: Cycle,
}

impl<C: Channel> Turning<C> {
    // A layer over a channel; no message is sent back where n is 0. Layers have a type each: what they make of the channel below differs.
    pub fn new(below: C, n: u8) -> Turning<C>
        ensures { (result.below ≡ below) × (result.cycle ≡ start n) }
    {
        Turning {
            below,
            cycle: Cycle::new(n),
        }
    }
}

// Takes a message for a house and sends it to the house again; a refused sending is lost.
fn send_back<C: Channel>(below: &mut C, house: u32, buffer: &mut [u8]) -> Result<(), ChannelFault>
    ensures allowed { MatchResult result (λ _. Takeable (C.Channel.size below.old) house (length buffer.old)) (λ f. WhyUntaken f (C.Channel.size below.old) house (length buffer.old)) }
    ensures exactly { MatchResult result (λ _. SentBack C.Channel below.old house below.new) (λ _. (below.new ≡ below.old) × (buffer.new ≡ buffer.old)) }
    ensures nothing_else { NoneNew (C.Channel.waiting below.old) (C.Channel.waiting below.new) × (C.Channel.size below.new ≡ C.Channel.size below.old) }
{
    if let Some(len) = below.take(house, buffer)? {
        let _ = below.send(house, &buffer[0..len]);
    }
    Ok(())
}

impl<C: Channel> Channel for Turning<C> {
    ghost size = { λ s. C.Channel.size s.below };

    ghost waiting = { λ s. C.Channel.waiting s.below };

    ghost full = { λ s sent. C.Channel.full s.below sent };

    ghost accepts = { λ s sent t. C.Channel.accepts s.below sent t.below × (t.cycle ≡ s.cycle) };

    ghost gives = { λ s house answer t. Turned C.Channel (due s.cycle) s.below house answer t.below × (t.cycle ≡ next s.cycle) };

    fn size(&self) -> FilterSize {
        self.below.size()
    }

    fn send(&mut self, to: u32, message: &[u8]) -> Result<(), ChannelFault> {
        self.below.send(to, message)
    }

    fn take(&mut self, house: u32, buffer: &mut [u8]) -> Result<Option<usize>, ChannelFault> {
        if self.cycle.is_due() {
            send_back(&mut self.below, house, buffer)?;
        }
        let answer = self.below.take(house, buffer)?;
        self.cycle = self.cycle.next();
        Ok(answer)
    }
}
