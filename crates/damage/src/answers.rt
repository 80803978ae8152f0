// What opening answered: how often each number came, and a digest of everything.
use fault::Refusal;
use icp::{Answer, AnswerKind, MessageFault, Query, Reply, ReplyKind};
use opening::{Opened, Opener, UpdateKind};

// Counts by the number of the refusal, as they are printed, 0 where a message was opened; and FNV-1a of all answers.
#[derive(Drop)]
pub struct Answers {
    counts: [u32; 32],
    digest: u64,
}

// An opened message, whose parts go into the digest.
trait Noted {
    fn note(&self, answers: &mut Answers);
}

impl Answers {
    pub(crate) fn new() -> Answers {
        Answers {
            counts: [0; 32],
            digest: 0xcbf29ce484222325,
        }
    }

    // How often each number came.
    pub(crate) fn counts(&self) -> &[u32] {
        &self.counts
    }

    pub(crate) fn digest(&self) -> u64 {
        self.digest
    }

    // A step of FNV-1a, written out: octets come one by one, and `Fnv` takes a whole name.
    fn mix(&mut self, octet: u8) {
        self.digest = (self.digest ^ octet as u64).wrapping_mul(0x100000001b3);
    }

    fn mix_octets(&mut self, octets: &[u8]) {
        for octet in octets {
            self.mix(*octet);
        }
    }

    fn mix_number(&mut self, number: u32) {
        self.mix_octets(&number.to_be_bytes());
    }

    fn tally(&mut self, number: u8) {
        let count = &mut self.counts[(number & 31) as usize];
        *count = count.saturating_add(1);
        self.mix(number);
    }

    // What a call answered.
    fn opened<T: Noted + Drop>(&mut self, answer: Result<T, MessageFault>) {
        match answer {
            Ok(message) => {
                self.tally(0);
                message.note(self);
            }
            Err(refusal) => {
                let fault = refusal.fault();
                self.tally(fault.number);
                self.mix(fault.layer.number());
                self.mix_number(fault.house);
                self.mix_number(fault.version);
            }
        }
    }

    // Opens a message in every way.
    pub(crate) fn open(&mut self, opener: &Opener, request: u32, name: &[u8], message: &[u8]) {
        self.opened(opener.open_update(message));
        self.opened(opener.open_answer(message));
        self.opened(opener.open_query(message));
        self.opened(opener.open_reply(request, name, message));
    }
}

// Entry by entry, or octet by octet.
impl Noted for Opened<'_> {
    fn note(&self, answers: &mut Answers) {
        answers.mix_number(self.sender());
        answers.mix_number(self.version());
        match self.kind() {
            UpdateKind::Changes => {
                for change in self.changes() {
                    answers.mix_number(change.position);
                    answers.mix(u8::from(change.value));
                }
            }
            UpdateKind::Whole => answers.mix_octets(self.rest()),
        }
    }
}

impl Noted for Answer {
    fn note(&self, answers: &mut Answers) {
        answers.mix(match self.kind {
            AnswerKind::Acknowledgement => 0,
            AnswerKind::CallForWhole => 1,
        });
        answers.mix_number(self.sender);
        answers.mix_number(self.held);
        answers.mix_number(self.owner);
    }
}

impl Noted for Query<'_> {
    fn note(&self, answers: &mut Answers) {
        answers.mix_number(self.sender);
        answers.mix_number(self.request);
        answers.mix_octets(self.name);
    }
}

impl Noted for Reply<'_> {
    fn note(&self, answers: &mut Answers) {
        answers.mix(match self.kind {
            ReplyKind::Hit => 1,
            ReplyKind::Miss => 0,
        });
        answers.mix_number(self.sender);
        answers.mix_number(self.request);
        answers.mix_octets(self.name);
    }
}
