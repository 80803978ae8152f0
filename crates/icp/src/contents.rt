// What messages say.
use crate::opcode::Opcode;

// What a header says beside the message's length: the kind, the request number, the option data and the sender.
#[derive(Clone, Copy, PartialEq, Eq, Debug)]
pub struct Header {
    pub opcode: Opcode,
    pub request: u32,
    pub option: u32,
    pub sender: u32,
}

// One entry of a change list: a position of the summary, and its new value.
#[derive(Clone, Copy, PartialEq, Eq, Debug)]
pub struct Change {
    pub position: u32,
    pub value: bool,
}

// What an answer to an update is: the version is held, or the newest whole is wanted.
#[derive(Clone, Copy, PartialEq, Eq, Debug)]
pub enum AnswerKind {
    Acknowledgement,
    CallForWhole,
}

// The sender holds this version of the owner's summary.
#[derive(Clone, Copy, PartialEq, Eq, Debug)]
pub struct Answer {
    pub kind: AnswerKind,
    pub sender: u32,
    pub held: u32,
    pub owner: u32,
}

// The sender asks whether the record of a name is held.
#[derive(Clone, Copy, PartialEq, Eq, Debug)]
pub struct Query<'m> {
    pub sender: u32,
    pub request: u32,
    pub name: &'m [u8],
}

// Whether a record is held.
#[derive(Clone, Copy, PartialEq, Eq, Debug)]
pub enum ReplyKind {
    Hit,
    Miss,
}

// The reply to the query of a number and a name.
#[derive(Clone, Copy, PartialEq, Eq, Debug)]
pub struct Reply<'m> {
    pub kind: ReplyKind,
    pub sender: u32,
    pub request: u32,
    pub name: &'m [u8],
}
