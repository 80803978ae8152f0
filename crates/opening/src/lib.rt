// Messages opened by a house: what octets are read as, and in which order they are refused.
#![tactic(auto)]

mod headers;
mod laws;
mod numbers;
mod opened;
mod opener;
mod replies;

pub use laws::message_laws;
pub use opened::{Entries, Opened, UpdateKind};
pub use opener::{Identity, Opener};
