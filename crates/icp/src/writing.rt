// Answers, queries and replies written.
ghost use Rattle.std.specs.Prelude.{◌≡◌, ℕ, ◌+◌, ◌≤◌, ◌++◌, length, Some as Just, None as Nothing, MatchResult};
ghost use Rattle.std.specs.List.{flat_map};
ghost use Rattle.icp.specs.Contents.{header, filter_fields, text, query as asks};
ghost use Rattle.icp.specs.Opcodes.{opcode_number};
ghost use Rattle.icp.specs.Types.{answer_opcode, answer_says, reply_opcode, reply_as};
ghost use Rattle.icp.specs.Writing.{Written, begins, put_at, short_output, text_refusal};

use crate::contents::{Answer, AnswerKind, Header, Query, Reply, ReplyKind};
use crate::opcode::Opcode;
use crate::refusals::MessageFault;
use store::good_name;

// Copies octets into an output, from a place on.
pub(crate) fn put(out: &mut [u8], at: usize, octets: &[u8])
    requires { at + length octets.now ≤ length out.old }
    ensures { out.new ≡ put_at out.old at octets.now }
{
    out[at..at + octets.len()].copy_from_slice(octets);
}

// Copies parts into the first octets of an output, one after another.
pub(crate) fn put_parts(out: &mut [u8], parts: &[&[u8]])
    requires { length (flat_map (λ p. p.now) parts.now) ≤ length out.old }
    ensures { out.new ≡ begins (flat_map (λ p. p.now) parts.now) out.old }
{
    // The place is counted, since the parts differ in length.
    let mut at = 0;
    for part in parts {
        put(out, at, part);
        at += part.len();
    }
}

impl Header {
    // The octets of the header, in a message of this length.
    pub(crate) fn octets(self, length: u16) -> [u8; 20]
        ensures { result ≡ header (opcode_number self.opcode) length self.request self.option self.sender }
    {
        let l = length.to_be_bytes();
        let r = self.request.to_be_bytes();
        let d = self.option.to_be_bytes();
        let s = self.sender.to_be_bytes();
        let op = self.opcode.number();
        [
            op, 2, l[0], l[1], r[0], r[1], r[2], r[3], 0, 0, 0, 0, d[0], d[1], d[2], d[3], s[0],
            s[1], s[2], s[3],
        ]
    }
}

// The octets of an update's filter.
pub(crate) fn filter_fields(positions: u32, count: u32) -> [u8; 12]
    ensures { result ≡ filter_fields positions count }
{
    let m = positions.to_be_bytes();
    let c = count.to_be_bytes();
    [0, 4, 0, 32, m[0], m[1], m[2], m[3], c[0], c[1], c[2], c[3]]
}

// The opcode of each kind: one match for each of the two enums, which have nothing else alike.
impl AnswerKind {
    fn opcode(self) -> Opcode
        ensures { opcode_number result ≡ answer_opcode self }
    {
        match self {
            AnswerKind::Acknowledgement => Opcode::Acknowledgement,
            AnswerKind::CallForWhole => Opcode::CallForWhole,
        }
    }
}

impl ReplyKind {
    fn opcode(self) -> Opcode
        ensures { opcode_number result ≡ reply_opcode self }
    {
        match self {
            ReplyKind::Hit => Opcode::Hit,
            ReplyKind::Miss => Opcode::Miss,
        }
    }
}

impl Answer {
    // Writes the answer; the rest of the output remains.
    pub fn write(&self, out: &mut [u8]) -> Result<usize, MessageFault>
        ensures { MatchResult result (λ n. (short_output self.now.sender (length out.old) 20 ≡ Nothing) × ((m : ℕ) → Written m (answer_says self.now) out.old out.new n)) (λ f. (short_output self.now.sender (length out.old) 20 ≡ Just f) × (out.new ≡ out.old)) }
    {
        if out.len() < 20 {
            return Err(MessageFault::Output { house: self.sender });
        }
        let header = Header {
            opcode: self.kind.opcode(),
            request: self.held,
            option: self.owner,
            sender: self.sender,
        };
        put(out, 0, &header.octets(20));
        Ok(20)
    }
}

// Writes a message that ends in a name and a zero octet, with these octets between header and name, and answers its length.
#[inline]
fn write_named(
    out: &mut [u8],
    head: Header,
    between: &[u8],
    name: &[u8],
) -> Result<usize, MessageFault>
    requires { length between.now ≤ 4 }
    ensures { MatchResult result (λ n. (text_refusal head.sender (20 + length between.now) name.now (length out.old) ≡ Nothing) × (n ≡ 20 + length between.now + length name.now + 1) × (out.new ≡ begins (header (opcode_number head.opcode) n head.request head.option head.sender ++ (between.now ++ text name.now)) out.old)) (λ f. (text_refusal head.sender (20 + length between.now) name.now (length out.old) ≡ Just f) × (out.new ≡ out.old)) }
{
    let house = head.sender;
    if !good_name(name) {
        return Err(MessageFault::Name { house });
    }
    let length = 20 + between.len() + name.len() + 1;
    if out.len() < length {
        return Err(MessageFault::Output { house });
    }
    put(out, 0, &head.octets(length as u16));
    put(out, 20, between);
    put(out, 20 + between.len(), name);
    put(out, 20 + between.len() + name.len(), &[0]);
    Ok(length)
}

impl Query<'_> {
    // Writes the query; the rest of the output remains.
    pub fn write(&self, out: &mut [u8]) -> Result<usize, MessageFault>
        ensures { MatchResult result (λ n. (text_refusal self.now.sender 24 self.now.name.now (length out.old) ≡ Nothing) × ((m : ℕ) → Written m (asks self.now.sender self.now.request self.now.name.now) out.old out.new n)) (λ f. (text_refusal self.now.sender 24 self.now.name.now (length out.old) ≡ Just f) × (out.new ≡ out.old)) }
    {
        let header = Header {
            opcode: Opcode::Query,
            request: self.request,
            option: 0,
            sender: self.sender,
        };
        write_named(out, header, &self.sender.to_be_bytes(), self.name)
    }
}

impl Reply<'_> {
    // Writes the reply; the rest of the output remains.
    pub fn write(&self, out: &mut [u8]) -> Result<usize, MessageFault>
        ensures { MatchResult result (λ n. (text_refusal self.now.sender 20 self.now.name.now (length out.old) ≡ Nothing) × ((m : ℕ) → Written m (reply_as self.now.kind self.now.sender self.now.request self.now.name.now) out.old out.new n)) (λ f. (text_refusal self.now.sender 20 self.now.name.now (length out.old) ≡ Just f) × (out.new ≡ out.old)) }
    {
        let header = Header {
            opcode: self.kind.opcode(),
            request: self.request,
            option: 0,
            sender: self.sender,
        };
        write_named(out, header, &[], self.name)
    }
}
