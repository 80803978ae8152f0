// Good messages of siblings: updates of a catalogue that changes, answers, queries and replies.
use crate::random::Random;
use anyhow::anyhow;
use digest::Fnv;
use filter::{CountingFilter, FilterSize, Receipt, Summary};
use icp::{
    Answer, AnswerKind, MessageFault, Query, Reply, ReplyKind, write_declaration, write_whole,
};
use std::alloc::{AllocError, Global};

// What message comes next.
#[derive(Clone, Copy)]
enum Kind {
    Declaration,
    Whole,
    Answer(AnswerKind),
    Query,
    Reply(ReplyKind),
}

// The kinds as they are drawn, declarations twice as often as the others.
const KINDS: [Kind; 8] = [
    Kind::Declaration,
    Kind::Declaration,
    Kind::Whole,
    Kind::Answer(AnswerKind::Acknowledgement),
    Kind::Answer(AnswerKind::CallForWhole),
    Kind::Query,
    Kind::Reply(ReplyKind::Hit),
    Kind::Reply(ReplyKind::Miss),
];

// The siblings as they are drawn, house 3 twice as often as the others.
const SIBLINGS: [u32; 4] = [1, 3, 4, 3];

// A catalogue, the summary of it declared before, and the query that is open.
#[derive(Drop)]
pub struct Catalogue {
    heap: Global,
    size: FilterSize,
    filter: CountingFilter,
    before: Summary,
    after: Summary,
    out: Vec<u8>,
    pub name: Vec<u8>,
    pub request: u32,
}

impl Catalogue {
    pub(crate) fn new(heap: Global, size: FilterSize) -> Result<Catalogue, AllocError> {
        Ok(Catalogue {
            heap,
            size,
            filter: CountingFilter::new(heap, size)?,
            before: Summary::new(heap, size)?,
            after: Summary::new(heap, size)?,
            out: vec![in heap; 0; 256]?,
            name: Vec::new(heap),
            request: 0,
        })
    }

    // A name of some letters, and a number, for the next query.
    fn ask(&mut self, random: &mut Random) -> anyhow::Result<()> {
        self.name.clear();
        for _ in 0..1 + random.below(20) {
            self.name.push(b'a' + random.below(26) as u8)?;
        }
        self.request = random.below(9);
        Ok(())
    }

    // A record comes, and on every other turn leaves again once its version is written.
    fn declare(&mut self, random: &mut Random, sender: u32) -> Result<usize, MessageFault> {
        let earlier = random.below(5);
        let receipt = Receipt::of(&Fnv, self.size, self.name.as_slice());
        let _ = self.before.summarize(&self.filter);
        self.filter.raise(&receipt);
        let _ = self.after.summarize(&self.filter);
        if random.below(2) == 0 {
            self.filter.lower(&receipt);
        }
        write_declaration(
            sender,
            earlier,
            &self.before,
            &self.after,
            self.out.as_mut_slice(),
        )
    }

    // Writes a message of a kind from a sibling: a match on the kind drawn, since a declaration draws numbers of its own, after the sibling's.
    fn write(&mut self, random: &mut Random, kind: Kind) -> Result<usize, MessageFault> {
        let sender = random.pick(&SIBLINGS);
        let request = self.request;
        let name = self.name.as_slice();
        let out = self.out.as_mut_slice();
        match kind {
            Kind::Declaration => self.declare(random, sender),
            Kind::Whole => write_whole(sender, request.saturating_add(1), &self.after, out),
            Kind::Answer(kind) => {
                let answer = Answer {
                    kind,
                    sender,
                    held: request,
                    owner: 2,
                };
                answer.write(out)
            }
            Kind::Query => {
                let query = Query {
                    sender,
                    request,
                    name,
                };
                query.write(out)
            }
            Kind::Reply(kind) => {
                let reply = Reply {
                    kind,
                    sender,
                    request,
                    name,
                };
                reply.write(out)
            }
        }
    }

    // The next message.
    pub(crate) fn message(&mut self, random: &mut Random) -> anyhow::Result<Vec<u8>> {
        self.ask(random)?;
        let kind = random.pick(&KINDS);
        let Ok(length) = self.write(random, kind) else {
            return Err(anyhow!("a good message was not written"));
        };
        Ok(self.out.iter().take(length).copied().collect(self.heap)?)
    }
}
