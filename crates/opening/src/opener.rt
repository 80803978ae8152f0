// Who opens a message, and what for.
ghost use Rattle.std.specs.Prelude.{◌≡◌, true, false, MatchOption};
ghost use Rattle.icp.specs.Opcodes.{opcode_number};
ghost use Rattle.opening.specs.Reading.{identity, least, opens, stranger};

use filter::FilterSize;
use icp::Opcode;

// A house as the opener of a message: its number, how many houses there are, and how many positions their filters have.
#[derive(Clone, Copy, PartialEq, Eq, Debug)]
pub struct Opener {
    pub number: u32,
    pub count: u32,
    pub size: FilterSize,
}

// The same in plain numbers: an opened update is a token of plain numbers, which is moved on to other crates.
#[derive(Clone, Copy, PartialEq, Eq, Debug)]
pub struct Identity {
    pub number: u32,
    pub count: u32,
    pub positions: u32,
}

// What a message is opened as: a closed set, so that each fact of it is one match.
#[derive(Clone, Copy)]
pub(crate) enum Call {
    Update,
    Answer,
    Query,
    Reply,
}

impl Call {
    // The fewest octets of such a message.
    pub(crate) fn least(self) -> usize
        ensures { result ≡ least self }
    {
        match self {
            Call::Update => 32,
            Call::Answer => 20,
            Call::Query => 24,
            Call::Reply => 20,
        }
    }

    // Whether such a message may have this opcode.
    fn opens(self, opcode: Opcode) -> bool
        ensures { result ≡ opens self (opcode_number opcode) }
    {
        match self {
            Call::Update => matches!(opcode, Opcode::Changes | Opcode::Whole),
            Call::Answer => matches!(opcode, Opcode::Acknowledgement | Opcode::CallForWhole),
            Call::Query => matches!(opcode, Opcode::Query),
            Call::Reply => matches!(opcode, Opcode::Hit | Opcode::Miss),
        }
    }

    // The opcode of a number, where such a message may have it.
    pub(crate) fn opcode(self, number: u8) -> Option<Opcode>
        ensures { MatchOption result (opens self number ≡ false) (λ o. (opens self number ≡ true) × (opcode_number o ≡ number)) }
    {
        Opcode::try_from(number)
            .ok()
            .filter(|opcode| self.opens(*opcode))
    }
}

impl Opener {
    // The opener in plain numbers, as an opened update keeps it. `From` would give the same method under a less telling name.
    pub fn identity(&self) -> Identity
        ensures { result ≡ identity self.now }
    {
        Identity {
            number: self.number,
            count: self.count,
            positions: self.size.positions(),
        }
    }

    // Whether a house is the opener itself or outside the federation.
    pub(crate) fn is_stranger(&self, house: u32) -> bool
        ensures { result ≡ stranger self.now house }
    {
        house < 1 || house > self.count || house == self.number
    }
}
