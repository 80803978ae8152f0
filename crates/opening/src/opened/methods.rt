// Updates opened and read.
ghost use Rattle.std.specs.Prelude.{◌≡◌, ◌<◌, ◌≤◌, length, drop, Some as Just, None as Nothing, MatchOption, MatchResult, slice_index_or};
ghost use Rattle.opening.specs.Reading.{identity, change, entries_in, rises, opcode_in, wrong_filter, wrong_body, wrong_version, wrong_entries, Headed, body_refusal, update_refusal, update_in};
ghost use Rattle.opening.specs.Types.{update_as, kind_of, entries_left};
ghost use Rattle.opening.specs.declared.opener.Call.TheVariants.{Update};

use super::{Entries, Opened, UpdateKind};
use crate::headers::open_header;
use crate::numbers::{number2, number4};
use crate::opener::{Call, Identity, Opener};
use icp::{Change, Header, MessageFault, Opcode};

// The entry that a number says: the top bit is the new value.
fn change(n: u32) -> Change
    ensures { result ≡ change n }
{
    Change {
        position: n % 0x8000_0000,
        value: n >= 0x8000_0000,
    }
}

impl Iterator for Entries<'_> {
    ghost use Rattle.std.specs.Iterator.{YieldsFirst, item_count};

    type Item = Change;

    ghost next_gives = { YieldsFirst entries_left };

    ghost remaining = { item_count entries_left };

    fn next(&mut self) -> Option<Change> {
        let (octets, rest) = self.rest.split_first_chunk()?;
        self.rest = rest;
        Some(change(u32::from_be_bytes(*octets)))
    }
}

// Whether the positions of a change list rise, all below m. It stays a function of its own, so that its short loop has a place apart from its callers' code.
#[inline(never)]
fn rising(entries: Entries<'_>, m: u32) -> bool
    ensures { result ≡ rises m 0 (entries_left entries.entry) }
{
    let mut low = 0;
    for entry in entries {
        let position = entry.position;
        if position < low || position >= m {
            return false;
        }
        low = position + 1;
    }
    true
}

// An update whose header passed the checks, at the house that opens it.
#[derive(Clone, Copy)]
struct Incoming<'m> {
    opener: Opener,
    message: &'m [u8],
    header: Header,
    ghost headed: { Headed Update opener message.now header },
}

impl<'m> Incoming<'m> {
    // How it gives the version.
    fn kind(self) -> UpdateKind
        ensures { result ≡ kind_of (opcode_in self.entry.message.now) }
    {
        if self.header.opcode == Opcode::Changes {
            UpdateKind::Changes
        } else {
            UpdateKind::Whole
        }
    }

    // What follows the fields of the filter.
    fn rest(self) -> &'m [u8]
        ensures { result.now ≡ drop 32 self.entry.message.now }
    {
        &self.message[32..]
    }

    // Whether it is of another filter.
    fn wrong_filter(self) -> bool
        ensures { result ≡ wrong_filter self.entry.opener self.entry.message.now }
    {
        number2(self.message, 20) != 4
            || number2(self.message, 22) != 32
            || number4(self.message, 24) != self.opener.size.positions()
    }

    // Whether its body has another length than its kind and its count give.
    fn wrong_body(self) -> bool
        ensures { result ≡ wrong_body self.entry.opener self.entry.message.now }
    {
        let length = self.message.len();
        let count = number4(self.message, 28) as usize;
        let octets = self.opener.size.octets();
        match self.kind() {
            UpdateKind::Changes => length != 32 + 4 * count || !(4 * count < octets),
            UpdateKind::Whole => length != 32 + octets || count != 0,
        }
    }

    // Whether it has no version, or another earlier one than its kind gives.
    fn wrong_version(self) -> bool
        ensures { result ≡ wrong_version self.entry.message.now }
    {
        let version = self.header.request;
        if version == 0 {
            return true;
        }
        let earlier = match self.kind() {
            UpdateKind::Changes => version - 1,
            UpdateKind::Whole => 0,
        };
        self.header.option != earlier
    }

    // Whether it is a change list whose positions are too large or do not rise.
    fn wrong_entries(self) -> bool
        ensures { result ≡ wrong_entries self.entry.opener self.entry.message.now }
    {
        let entries = Entries { rest: self.rest() };
        match self.kind() {
            UpdateKind::Changes => !rising(entries, self.opener.size.positions()),
            UpdateKind::Whole => false,
        }
    }

    // The checks of its body.
    fn check(self) -> Result<(), MessageFault>
        ensures { MatchResult result (λ _. body_refusal self.entry.opener self.entry.message.now ≡ Nothing) (λ f. body_refusal self.entry.opener self.entry.message.now ≡ Just f) }
    {
        let house = self.opener.number;
        let version = self.header.request;
        if self.wrong_filter() {
            return Err(MessageFault::Filter { house, version });
        }
        if self.wrong_body() {
            return Err(MessageFault::Body { house, version });
        }
        if self.wrong_version() {
            return Err(MessageFault::Version { house, version });
        }
        if self.wrong_entries() {
            return Err(MessageFault::Position { house, version });
        }
        Ok(())
    }
}

impl Opener {
    // What a sibling's update says.
    pub fn open_update<'m>(&self, message: &'m [u8]) -> Result<Opened<'m>, MessageFault>
        ensures { MatchResult result (λ u. (update_refusal self.now message.now ≡ Nothing) × (update_as u.kind u.sender u.version u.rest.now ≡ update_in message.now) × (u.opener ≡ identity self.now)) (λ f. update_refusal self.now message.now ≡ Just f) }
    {
        let header = open_header(Call::Update, self, message)?;
        let update = Incoming {
            opener: *self,
            message,
            header,
        };
        update.check()?;
        Ok(Opened {
            opener: self.identity(),
            kind: update.kind(),
            sender: header.sender,
            version: header.request,
            rest: &message[32..],
        })
    }
}

impl<'m> Opened<'m> {
    // The house that opened the update.
    pub fn opener(&self) -> Identity
        ensures { result ≡ self.now.opener }
    {
        self.opener
    }

    // How the version is given.
    pub fn kind(&self) -> UpdateKind
        ensures { result ≡ self.now.kind }
    {
        self.kind
    }

    // The house whose summary it is.
    pub fn sender(&self) -> u32
        ensures { result ≡ self.now.sender }
    {
        self.sender
    }

    // The version of the summary.
    pub fn version(&self) -> u32
        ensures { result ≡ self.now.version }
    {
        self.version
    }

    // The octets of a whole, or of a list's entries.
    pub fn rest(&self) -> &[u8]
        ensures { result.now ≡ self.now.rest.now }
    {
        self.rest
    }

    // The entries of a change list, in order.
    pub fn changes(&self) -> Entries<'m>
        ensures { entries_left result ≡ entries_in self.now.rest.now }
    {
        Entries { rest: self.rest }
    }

    // An entry of a change list, or none past the last. It is read at its place: `changes().nth(at)` would read all entries before it.
    pub fn entry(&self, at: usize) -> Option<Change>
        ensures { MatchOption result (length (entries_in self.now.rest.now) ≤ at) (λ e. (at < length (entries_in self.now.rest.now)) × (slice_index_or (entries_in self.now.rest.now) at e ≡ e)) }
    {
        if at < self.rest.len() / 4 {
            Some(change(number4(self.rest, 4 * at)))
        } else {
            None
        }
    }
}
