// What every channel does.
ghost use Rattle.std.specs.Prelude.{◌≡◌, ℕ, List, length, IfOk, Option as Maybe, MatchResult};
ghost use Rattle.channel.specs.Letters.{Letter, letter, Sendable, Takeable, Sent, Taken, Within, message_in};
ghost use Rattle.channel.specs.Refused.{WhyUnsent, WhyUntaken};

use crate::refusals::ChannelFault;
use filter::FilterSize;

// A channel, by the size of the filters that its messages are about and by the letters that wait. It may lose, double and reorder letters: its own members say how.
pub trait Channel {
    ghost size: { Self → ℕ };

    // the letters that wait, oldest first where there is an order
    ghost waiting: { Self → List Letter };

    // no room for a letter
    ghost full: { Self → Letter → Type 0 };

    // what an accepted sending makes of the channel
    ghost accepts: { Self → Letter → Self → Type 0 };

    // what is given to a house, and what is left
    ghost gives: { Self → ℕ → Maybe (List ℕ) → Self → Type 0 };

    // How many positions the filters have.
    fn size(&self) -> FilterSize
        ensures { result.positions ≡ size self.now };

    // Sends a message to a house. The clauses make one letter of the two; here they are two arguments, since no caller and no layer keeps them together. The house is checked first, then the length, then the room; what is refused changes nothing.
    fn send(&mut self, to: u32, message: &[u8]) -> Result<(), ChannelFault>
        ensures allowed { MatchResult result (λ _. Sendable (size self.old) (letter to message.now) × (full self.old (letter to message.now) → ⊥)) (λ f. WhyUnsent f (size self.old) (letter to message.now) (full self.old (letter to message.now))) }
        ensures exactly { MatchResult result (λ _. accepts self.old (letter to message.now) self.new) (λ _. self.new ≡ self.old) }
        ensures nothing_else { Sent (waiting self.old) (letter to message.now) (waiting self.new) × (size self.new ≡ size self.old) };

    // Takes a message for a house, again two arguments as a caller has them, into the front of a buffer that has room for any, and answers its length, or none. What else is in the buffer after an answer is left open; what is refused changes nothing.
    fn take(&mut self, house: u32, buffer: &mut [u8]) -> Result<Option<usize>, ChannelFault>
        ensures allowed { MatchResult result (λ n. Takeable (size self.old) house (length buffer.old) × Within n (length buffer.old)) (λ f. WhyUntaken f (size self.old) house (length buffer.old)) }
        ensures exactly { MatchResult result (λ n. gives self.old house (message_in n buffer.new) self.new) (λ _. (self.new ≡ self.old) × (buffer.new ≡ buffer.old)) }
        ensures nothing_else { IfOk result (λ n. Taken (size self.old) (waiting self.old) house (message_in n buffer.new) (waiting self.new)) × (size self.new ≡ size self.old) };
}
