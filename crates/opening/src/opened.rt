// An update that was opened.
use crate::opener::Identity;

mod methods;

// How an update gives a version: by what changed since the one before, or whole.
#[derive(Clone, Copy, PartialEq, Eq, Debug)]
pub enum UpdateKind {
    Changes,
    Whole,
}

// An update as a house opened it. It borrows the message, from whose octets its entries are read, and is moved, not copied.
#[derive(PartialEq, Eq, Debug, Drop)]
pub struct Opened<'m> {
    opener: Identity,
    kind: UpdateKind,
    sender: u32,
    version: u32,
    rest: &'m [u8],
}

// The entries of a change list that are left to read.
#[derive(Clone, PartialEq, Eq, Debug, Drop)]
pub struct Entries<'m> {
    rest: &'m [u8],
}
