// The kinds of messages, as their first octet tells them.
ghost use Rattle.std.specs.Prelude.{◌≡◌};
ghost use Rattle.icp.specs.Opcodes.{opcode_number, Decodes};

// What kind of message it is.
#[derive(Clone, Copy, PartialEq, Eq, Debug)]
pub enum Opcode {
    Query = 1,
    Hit = 2,
    Miss = 3,
    Changes = 20,
    Whole = 30,
    Acknowledgement = 31,
    CallForWhole = 32,
}

// A number that no opcode has.
#[derive(Clone, Copy, PartialEq, Eq, Debug)]
pub struct UnknownOpcode(pub u8);

impl Opcode {
    // The opcode as an octet.
    pub fn number(self) -> u8
        ensures { result ≡ opcode_number self }
    {
        self as u8
    }
}

impl TryFrom<u8> for Opcode {
    type Error = UnknownOpcode;

    ghost try_from_gives = { Decodes };

    fn try_from(number: u8) -> Result<Self, UnknownOpcode> {
        match number {
            1 => Ok(Opcode::Query),
            2 => Ok(Opcode::Hit),
            3 => Ok(Opcode::Miss),
            20 => Ok(Opcode::Changes),
            30 => Ok(Opcode::Whole),
            31 => Ok(Opcode::Acknowledgement),
            32 => Ok(Opcode::CallForWhole),
            _ => Err(UnknownOpcode(number)),
        }
    }
}
