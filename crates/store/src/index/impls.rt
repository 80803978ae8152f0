// A hashed index is a store.
ghost use Rattle.std.specs.Prelude.{◌≡◌, IfOk, None as Nothing, MatchResult, OnOk, slice_index_or, slice_set};
ghost use Rattle.store.specs.Contents.{Held, Added, Unaddable};
ghost use Rattle.store.specs.Indexed.{Took, Gave};
ghost use Rattle.store.specs.Rows.{contents, given};

use super::HashedIndex;
use crate::lent::{free_place, row_at};
use crate::records::Record;
use crate::refusals::StoreFault;
use crate::row::Row;
use crate::stores::Store;

impl Store for HashedIndex<'_> {
    ghost rows = { λ x. contents x.parts.rows.now };

    fn len(&self) -> usize {
        self.parts.rows.len()
    }

    fn find(&self, name: &[u8]) -> Option<usize> {
        self.parts.search(name).place
    }

    // The place goes into the first cell, on the way of the search for the name, that no place is in.
    fn add(&mut self, new: Record<'_>) -> Result<usize, StoreFault>
        ensures rows { MatchResult result (λ place. Added (contents self.old.parts.rows.now) (given new.entry) place (contents self.new.parts.rows.now)) (λ f. (f ≡ StoreFault.NotAdded) × Unaddable (contents self.old.parts.rows.now) (given new.entry) × (self.new ≡ self.old)) }
        ensures cells { IfOk result (λ place. Took self.old.parts.cells.now new.entry.name.now place self.new.parts.cells.now) }
    {
        let place = self.place_for(new).ok_or(StoreFault::NotAdded)?;
        let at = self.parts.open_cell(new.name).ok_or(StoreFault::NotAdded)?;
        self.parts.put(at, place, new);
        Ok(place)
    }

    // The cell of the place is freed.
    fn remove(&mut self, place: usize) -> Result<(), StoreFault>
        ensures rows { MatchResult result (λ _. Held (contents self.old.parts.rows.now) place × (contents self.new.parts.rows.now ≡ slice_set (contents self.old.parts.rows.now) place Nothing)) (λ f. (f ≡ StoreFault.NoRow) × (slice_index_or (contents self.old.parts.rows.now) place Nothing ≡ Nothing) × (self.new ≡ self.old)) }
        ensures cells { OnOk result (Gave self.old.parts.cells.now place self.new.parts.cells.now) }
    {
        let row = self.row(place).ok_or(StoreFault::NoRow)?;
        let at = self
            .parts
            .cell_of(row.name(), place)
            .ok_or(StoreFault::NoRow)?;
        self.parts.release(at, place);
        Ok(())
    }

    fn free_place(&self) -> Option<usize> {
        free_place(self.parts.rows)
    }

    fn row(&self, place: usize) -> Option<Row> {
        row_at(self.parts.rows, place)
    }
}
