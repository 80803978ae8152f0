// Messages between houses: ICP version 2, with updates of summaries and their answers. What they say, and how each is written.
#![tactic(auto)]

mod contents;
mod declaring;
mod opcode;
mod refusals;
mod writing;

pub use contents::{Answer, AnswerKind, Change, Header, Query, Reply, ReplyKind};
pub use declaring::{write_declaration, write_whole};
pub use opcode::{Opcode, UnknownOpcode};
pub use refusals::MessageFault;
