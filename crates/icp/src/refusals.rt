// What writing and opening messages refuse.
ghost use Rattle.std.specs.Prelude.{◌≡◌};
ghost use Rattle.icp.specs.Faults.{message_fault};

use fault::{Fault, Layer, Refusal};

// Why a house did not write or open a message. Only five cases tell a version, the message's request number, so each case has fields of its own.
#[derive(Clone, Copy, PartialEq, Eq, Debug)]
pub enum MessageFault {
    // writing: no version comes after this one
    LastVersion { house: u32 },
    // writing: there is no version to repeat
    NothingDeclared { house: u32 },
    // writing: the output is too short
    Output { house: u32 },
    // the message is too short, too long, or not as long as it says
    Length { house: u32 },
    // another version of ICP, options, or option data where none is
    Header { house: u32 },
    // an opcode that this call does not open
    Opcode { house: u32 },
    // not from a sibling, or not for this house
    Sender { house: u32, version: u32 },
    // another number of functions, bits or positions
    Filter { house: u32, version: u32 },
    // a body of another length or count
    Body { house: u32, version: u32 },
    // no version, or another earlier version
    Version { house: u32, version: u32 },
    // positions too large or not rising
    Position { house: u32, version: u32 },
    // a name that is bad or not ended by a zero octet
    Name { house: u32 },
    // a reply to another query
    Reply { house: u32 },
}

impl MessageFault {
    // The number under which each case is reported: a match, since cases with fields have no numbers of their own.
    fn number(self) -> u8
        ensures { result ≡ (message_fault self).number }
    {
        match self {
            MessageFault::LastVersion { .. } => 12,
            MessageFault::NothingDeclared { .. } => 13,
            MessageFault::Output { .. } => 14,
            MessageFault::Length { .. } => 15,
            MessageFault::Header { .. } => 16,
            MessageFault::Opcode { .. } => 17,
            MessageFault::Sender { .. } => 18,
            MessageFault::Filter { .. } => 19,
            MessageFault::Body { .. } => 20,
            MessageFault::Version { .. } => 21,
            MessageFault::Position { .. } => 22,
            MessageFault::Name { .. } => 29,
            MessageFault::Reply { .. } => 30,
        }
    }
}

impl Refusal for MessageFault {
    ghost carries = { message_fault };

    fn fault(&self) -> Fault {
        let (house, version) = match *self {
            MessageFault::Sender { house, version }
            | MessageFault::Filter { house, version }
            | MessageFault::Body { house, version }
            | MessageFault::Version { house, version }
            | MessageFault::Position { house, version } => (house, version),
            MessageFault::LastVersion { house }
            | MessageFault::NothingDeclared { house }
            | MessageFault::Output { house }
            | MessageFault::Length { house }
            | MessageFault::Header { house }
            | MessageFault::Opcode { house }
            | MessageFault::Name { house }
            | MessageFault::Reply { house } => (house, 0),
        };
        Fault {
            number: self.number(),
            layer: Layer::Message,
            house,
            version,
        }
    }
}
