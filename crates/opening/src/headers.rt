// The checks that every message goes through first.
ghost use Rattle.std.specs.Prelude.{◌≡◌, ◌≤◌, ◌&&◌, nat_le, length, Some as Just, Option, MatchResult};
ghost use Rattle.opening.specs.Reading.{least, wrong_length, wrong_header, wrong_sender, header_refusal, Headed};

use crate::numbers::{number2, number4};
use crate::opener::{Call, Opener};
use icp::{Header, MessageFault, Opcode};

// Whether a message is too long, too short, or not as long as it says.
fn wrong_length(call: Call, message: &[u8]) -> bool
    ensures { result ≡ wrong_length call message.now }
{
    let n = message.len();
    n > 16384 || n < call.least() || number2(message, 2) as usize != n
}

// Whether a first octet is the opcode of a message that has no option data.
#[tactic(auto, using(crate::proofs::Opcodes::within_none))]
fn is_without_data(number: u8) -> bool
    ensures { result ≡ (nat_le 1 number && nat_le number 3) }
{
    matches!(
        Opcode::try_from(number),
        Ok(Opcode::Query | Opcode::Hit | Opcode::Miss)
    )
}

// Whether a message is of another version, or has options or data where none are.
fn wrong_header(message: &[u8]) -> bool
    requires { 20 ≤ length message.now }
    ensures { result ≡ wrong_header message.now }
{
    message[1] != 2
        || number4(message, 8) != 0
        || is_without_data(message[0]) && number4(message, 12) != 0
}

// Whether a message is not from a sibling, or not for this house.
fn wrong_sender(call: Call, opener: &Opener, message: &[u8]) -> bool
    requires { least call ≤ length message.now }
    ensures { result ≡ wrong_sender call opener.now message.now }
{
    let sender = number4(message, 16);
    let stranger = opener.is_stranger(sender);
    match call {
        Call::Update | Call::Reply => stranger,
        Call::Answer => stranger || number4(message, 12) != opener.number,
        Call::Query => stranger || number4(message, 20) != sender,
    }
}

// The header of a message that passes these checks. Call, opener and message are the arguments of the opening itself, and make no value of their own. Each opening has a copy in which the call is known: only that call's opcodes are left to compare.
#[inline(always)]
pub(crate) fn open_header(
    call: Call,
    opener: &Opener,
    message: &[u8],
) -> Result<Header, MessageFault>
    ensures { MatchResult result (λ h. Headed call opener.now message.now h) (λ f. (rest : Option MessageFault) → header_refusal call opener.now message.now rest ≡ Just f) }
{
    let house = opener.number;
    if wrong_length(call, message) {
        return Err(MessageFault::Length { house });
    }
    if wrong_header(message) {
        return Err(MessageFault::Header { house });
    }
    let Some(opcode) = call.opcode(message[0]) else {
        return Err(MessageFault::Opcode { house });
    };
    let request = number4(message, 4);
    if wrong_sender(call, opener, message) {
        return Err(MessageFault::Sender {
            house,
            version: request,
        });
    }
    Ok(Header {
        opcode,
        request,
        option: number4(message, 12),
        sender: number4(message, 16),
    })
}
