// What a channel refuses.
ghost use Rattle.channel.specs.Faults.{channel_fault};

use fault::{Fault, Layer, Refusal};

// Why a call of a channel was refused, by the number under which it is reported.
#[derive(Clone, Copy, PartialEq, Eq, Debug)]
pub enum ChannelFault {
    // beginning: filters cannot have so many positions
    Positions = 2,
    // beginning: memory of another length
    Length = 3,
    // the house is not 1 to 16
    NoHouse = 26,
    // the message has no octets or too many, or the buffer too few
    Octets = 27,
    // there is no room for the message
    Full = 28,
}

impl Refusal for ChannelFault {
    ghost carries = { channel_fault };

    fn fault(&self) -> Fault {
        Fault {
            number: *self as u8,
            layer: Layer::Channel,
            house: 0,
            version: 0,
        }
    }
}
