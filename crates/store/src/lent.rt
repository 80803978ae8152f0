// Lent rows, by place.
ghost use Rattle.std.specs.Prelude.{◌≡◌, ℕ, length, replicate, None as Nothing, Decides, MatchOption, MatchResult, slice_index_or};
ghost use Rattle.store.specs.Beginning.{Allowed, Unbegun};
ghost use Rattle.store.specs.Contents.{Bears, Held, Free, Absent, Named};
ghost use Rattle.store.specs.Rows.{content, contents};

use crate::refusals::StoreFault;
use crate::row::Row;

// Refuses a number of places that is not 1 to 1,024, and lent rows of another number.
pub fn check_places(places: usize, rows: usize) -> Result<(), StoreFault>
    ensures { MatchResult result (λ _. Allowed places × (rows ≡ places)) (λ f. Unbegun f places rows) }
{
    if !(1..=1024).contains(&places) {
        return Err(StoreFault::Places);
    }
    if rows != places {
        return Err(StoreFault::Length);
    }
    Ok(())
}

// Every row becomes free.
pub fn clear_rows(rows: &mut [Row])
    ensures { contents rows.new ≡ replicate (length rows.old) Nothing }
{
    rows.fill(Row::free());
}

// A free place: the first.
pub fn free_place(rows: &[Row]) -> Option<usize>
    ensures { MatchOption result ((i : ℕ) → Free (contents rows.now) i → ⊥) (λ i. Free (contents rows.now) i) }
{
    rows.iter().position(|row| !row.is_used())
}

// The place of a name, row after row.
pub fn place_of(rows: &[Row], name: &[u8]) -> Option<usize>
    ensures { MatchOption result (Absent (contents rows.now) name.now) (λ place. Named (contents rows.now) place name.now) }
{
    rows.iter().position(|row| row.is_named(name))
}

// The row of the record at a place.
pub fn row_at(rows: &[Row], place: usize) -> Option<Row>
    ensures { MatchOption result (slice_index_or (contents rows.now) place Nothing ≡ Nothing) (λ row. Held (contents rows.now) place × (content row ≡ slice_index_or (contents rows.now) place Nothing)) }
{
    rows.get(place).copied().filter(|row| row.is_used())
}

// Whether a record of this name is at a place.
pub fn has_name(rows: &[Row], place: usize, name: &[u8]) -> bool
    ensures { Decides result (Bears (slice_index_or (contents rows.now) place Nothing) name.now) }
{
    rows.get(place).is_some_and(|row| row.is_named(name))
}
