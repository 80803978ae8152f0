// What every store does.
ghost use Rattle.std.specs.Prelude.{◌≡◌, ℕ, length, None as Nothing, MatchOption, MatchResult, slice_index_or, slice_set};
ghost use Rattle.store.specs.Contents.{Contents, Unique, Named, Absent, Held, Free, Addable, Added, Unaddable};
ghost use Rattle.store.specs.Rows.{content, given};

use crate::records::Record;
use crate::refusals::StoreFault;
use crate::row::Row;

// A store, by what stands at each of its places.
pub trait Store {
    ghost rows: { Self → Contents };

    // The number of places. No name stands at two of them.
    fn len(&self) -> usize
        ensures places { result ≡ length (rows self.now) }
        ensures unique { Unique (rows self.now) };

    // The place of a name.
    fn find(&self, name: &[u8]) -> Option<usize>
        ensures { MatchOption result (Absent (rows self.now) name.now) (λ place. Named (rows self.now) place name.now) };

    // A record comes to a free place of the store's choice, which is answered.
    fn add(&mut self, new: Record<'_>) -> Result<usize, StoreFault>
        ensures { MatchResult result (λ place. Added (rows self.old) (given new.entry) place (rows self.new)) (λ f. (f ≡ StoreFault.NotAdded) × Unaddable (rows self.old) (given new.entry) × (self.new ≡ self.old)) };

    // The row at a place leaves.
    fn remove(&mut self, place: usize) -> Result<(), StoreFault>
        ensures { MatchResult result (λ _. Held (rows self.old) place × (rows self.new ≡ slice_set (rows self.old) place Nothing)) (λ f. (f ≡ StoreFault.NoRow) × (slice_index_or (rows self.old) place Nothing ≡ Nothing) × (self.new ≡ self.old)) };

    // A free place of the store's choice.
    fn free_place(&self) -> Option<usize>
        ensures { MatchOption result ((i : ℕ) → Free (rows self.now) i → ⊥) (λ i. Free (rows self.now) i) };

    // A free place, of the store's choice, for a record that may be added.
    fn place_for(&self, new: Record<'_>) -> Option<usize>
        ensures { MatchOption result (Unaddable (rows self.now) (given new.entry)) (λ place. Addable (rows self.now) (given new.entry) place) }
    {
        if !new.is_good() || self.find(new.name).is_some() {
            return None;
        }
        self.free_place()
    }

    // The row at a place, or none where no record is there.
    fn row(&self, place: usize) -> Option<Row>
        ensures { MatchOption result (slice_index_or (rows self.now) place Nothing ≡ Nothing) (λ row. Held (rows self.now) place × (content row ≡ slice_index_or (rows self.now) place Nothing)) };

    // The row at a place is copied into the row that is lent.
    fn read(&self, place: usize, row: &mut Row) -> Result<(), StoreFault>
        ensures { MatchResult result (λ _. Held (rows self.now) place × (content row.new ≡ slice_index_or (rows self.now) place Nothing)) (λ f. (f ≡ StoreFault.NoRow) × (slice_index_or (rows self.now) place Nothing ≡ Nothing) × (row.new ≡ row.old)) }
    {
        *row = self.row(place).ok_or(StoreFault::NoRow)?;
        Ok(())
    }
}
