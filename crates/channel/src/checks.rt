// What every channel checks.
ghost use Rattle.std.specs.Prelude.{◌≡◌, MatchResult};
ghost use Rattle.channel.specs.Letters.{letter, room, Housed, Sendable, Takeable};
ghost use Rattle.channel.specs.Refused.{WhyUnsent, WhyUntaken};

use crate::refusals::ChannelFault;
use filter::FilterSize;

// The most octets of a message.
pub fn room(size: FilterSize) -> usize
    ensures { result ≡ room size.positions }
{
    32 + size.octets()
}

// Refuses a number that is no house's.
fn check_house(house: u32) -> Result<(), ChannelFault>
    ensures { MatchResult result (λ _. Housed house) (λ f. (f ≡ ChannelFault.NoHouse) × (Housed house → ⊥)) }
{
    if (1..=16).contains(&house) {
        Ok(())
    } else {
        Err(ChannelFault::NoHouse)
    }
}

// Refuses a message that may not be sent.
pub(crate) fn check_letter(size: FilterSize, to: u32, message: &[u8]) -> Result<(), ChannelFault>
    ensures { MatchResult result (λ _. Sendable size.positions (letter to message.now)) (λ f. WhyUnsent f size.positions (letter to message.now) ⊥) }
{
    check_house(to)?;
    if !(1..=room(size)).contains(&message.len()) {
        return Err(ChannelFault::Octets);
    }
    Ok(())
}

// Refuses a house to which nothing may be given in so many octets.
pub(crate) fn check_taker(size: FilterSize, house: u32, space: usize) -> Result<(), ChannelFault>
    ensures { MatchResult result (λ _. Takeable size.positions house space) (λ f. WhyUntaken f size.positions house space) }
{
    check_house(house)?;
    if space < room(size) {
        return Err(ChannelFault::Octets);
    }
    Ok(())
}
