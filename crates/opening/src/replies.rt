// Answers, queries and replies opened.
ghost use Rattle.std.specs.Prelude.{◌≡◌, true, false, drop, Some as Just, None as Nothing, Option, MatchOption, MatchResult};
ghost use Rattle.icp.specs.declared.refusals.MessageFault.TheVariants as fault;
ghost use Rattle.icp.specs.Contents.{query as asks};
ghost use Rattle.icp.specs.Faults.{refuse};
ghost use Rattle.icp.specs.Types.{answer_says, reply_as};
ghost use Rattle.opening.specs.Reading.{least, all_but_last, wrong_text, Headed, header_refusal, answer_refusal, query_refusal, reply_refusal, answer_in, query_in, reply_in};

use crate::headers::open_header;
use crate::opener::{Call, Opener};
use icp::{Answer, AnswerKind, Header, MessageFault, Opcode, Query, Reply, ReplyKind};
use store::good_name;

// The name in a text, where it is a good name and a zero octet.
fn name_in(text: &[u8]) -> Option<&[u8]>
    ensures { MatchOption result (wrong_text text.now ≡ true) (λ name. (wrong_text text.now ≡ false) × (name.now ≡ all_but_last text.now)) }
{
    let (end, name) = text.split_last()?;
    (*end == 0 && good_name(name)).then_some(name)
}

impl Opener {
    // The header and the name of a message that ends in a name and a zero octet. Each opening has a copy, as of `open_header`.
    #[inline(always)]
    fn open_named<'m>(
        &self,
        call: Call,
        message: &'m [u8],
    ) -> Result<(Header, &'m [u8]), MessageFault>
        ensures { MatchResult result (λ r. Headed call self.now message.now r.0 × (wrong_text (drop (least call) message.now) ≡ false) × (r.1.now ≡ all_but_last (drop (least call) message.now))) (λ f. (rest : Option MessageFault) → header_refusal call self.now message.now (refuse (wrong_text (drop (least call) message.now)) (fault.Name self.now.number) rest) ≡ Just f) }
    {
        let header = open_header(call, self, message)?;
        let Some(name) = name_in(&message[call.least()..]) else {
            return Err(MessageFault::Name { house: self.number });
        };
        Ok((header, name))
    }

    // What an answer to an update of this house says.
    pub fn open_answer(&self, message: &[u8]) -> Result<Answer, MessageFault>
        ensures { MatchResult result (λ a. (answer_refusal self.now message.now ≡ Nothing) × (answer_says a ≡ answer_in message.now)) (λ f. answer_refusal self.now message.now ≡ Just f) }
    {
        let header = open_header(Call::Answer, self, message)?;
        if message.len() != 20 {
            return Err(MessageFault::Body {
                house: self.number,
                version: header.request,
            });
        }
        let kind = if header.opcode == Opcode::Acknowledgement {
            AnswerKind::Acknowledgement
        } else {
            AnswerKind::CallForWhole
        };
        Ok(Answer {
            kind,
            sender: header.sender,
            held: header.request,
            owner: header.option,
        })
    }

    // What a sibling asks.
    pub fn open_query<'m>(&self, message: &'m [u8]) -> Result<Query<'m>, MessageFault>
        ensures { MatchResult result (λ q. (query_refusal self.now message.now ≡ Nothing) × (asks q.sender q.request q.name.now ≡ query_in message.now)) (λ f. query_refusal self.now message.now ≡ Just f) }
    {
        let (header, name) = self.open_named(Call::Query, message)?;
        Ok(Query {
            sender: header.sender,
            request: header.request,
            name,
        })
    }

    // The reply to a query of this number and name.
    pub fn open_reply<'m>(
        &self,
        request: u32,
        name: &[u8],
        message: &'m [u8],
    ) -> Result<Reply<'m>, MessageFault>
        ensures { MatchResult result (λ a. (reply_refusal self.now request name.now message.now ≡ Nothing) × (reply_as a.kind a.sender a.request a.name.now ≡ reply_in message.now)) (λ f. reply_refusal self.now request name.now message.now ≡ Just f) }
    {
        let (header, named) = self.open_named(Call::Reply, message)?;
        if header.request != request || named != name {
            return Err(MessageFault::Reply { house: self.number });
        }
        let kind = if header.opcode == Opcode::Hit {
            ReplyKind::Hit
        } else {
            ReplyKind::Miss
        };
        Ok(Reply {
            kind,
            sender: header.sender,
            request: header.request,
            name: named,
        })
    }
}
