// Rows made and read.
ghost use Rattle.std.specs.Prelude.{◌≡◌, ◌≤◌, length, is_some, Some as Just, None as Nothing, Decides};
ghost use Rattle.store.specs.Contents.{Bears, Content};
ghost use Rattle.store.specs.Rows.{content, given, stored, name_in, size_in, cost_in};

use super::{Row, Stored};
use crate::records::Record;

impl Stored {
    // The octets of the name.
    fn name(&self) -> &[u8]
        ensures { result.now ≡ (stored self.now).name }
    {
        &self.name[..self.len as usize]
    }
}

impl Row {
    // A free row.
    pub const fn free() -> Row
        ensures { content result ≡ Nothing }
    {
        Row { stored: None }
    }

    // A row with a record.
    pub(crate) fn filled(new: Record<'_>) -> Row
        requires { length new.name.now ≤ 128 }
        ensures { content result ≡ Just (given new.entry) }
    {
        let mut name = [0; 128];
        name[..new.name.len()].copy_from_slice(new.name);
        Row {
            stored: Some(Stored {
                name,
                len: new.name.len() as u8,
                size: new.size,
                cost: new.cost,
            }),
        }
    }

    // Whether a record is in the row.
    pub(crate) fn is_used(&self) -> bool
        ensures { result ≡ is_some (content self.now) }
    {
        self.stored.is_some()
    }

    // The octets of the name, and none in a free row.
    pub fn name(&self) -> &[u8]
        ensures is { result.now ≡ name_in (content self.now) }
        ensures held { (c : Content) → content self.now ≡ Just c → result.now ≡ c.name }
    {
        match &self.stored {
            Some(stored) => stored.name(),
            None => &[],
        }
    }

    // The size of the record, and 0 in a free row.
    pub fn size(&self) -> u32
        ensures is { result ≡ size_in (content self.now) }
        ensures held { (c : Content) → content self.now ≡ Just c → result ≡ c.size }
    {
        self.stored.as_ref().map_or(0, |stored| stored.size)
    }

    // The cost of the record, and 0 in a free row.
    pub fn cost(&self) -> u16
        ensures is { result ≡ cost_in (content self.now) }
        ensures held { (c : Content) → content self.now ≡ Just c → result ≡ c.cost }
    {
        self.stored.as_ref().map_or(0, |stored| stored.cost)
    }

    // Whether the row has a record of this name.
    pub(crate) fn is_named(&self, name: &[u8]) -> bool
        ensures { Decides result (Bears (content self.now) name.now) }
    {
        self.stored
            .as_ref()
            .is_some_and(|stored| stored.name() == name)
    }
}
