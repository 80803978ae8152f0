// Cells searched, taken and freed.
ghost use Rattle.std.specs.Prelude.{◌≡◌, ℕ, ◌+◌, ◌%◌, ◌<◌, ◌≤◌, length, Some as Just, None as Nothing, Decides, MatchOption, ◌≢◌, slice_index_or, slice_set};
ghost use Rattle.store.specs.declared.cell.Cell.TheVariants.{Never as Unused, Freed as Emptied, Taken as Placed};
ghost use Rattle.store.specs.Indexed.{Opens};
ghost use Rattle.store.specs.Rows.{contents, given};
ghost use Rattle.store.specs.Search.{start, cell, Ends, NeverStops, StopsAt, Search};

use super::{CELLS, Parts};
use crate::cell::Cell;
use crate::lent::has_name;
use crate::records::Record;
use crate::row::Row;
use digest::{Digest, Fnv};

// What a search found, and how many cells it looked at.
#[derive(Clone, Copy, Debug)]
pub struct Probe {
    pub place: Option<usize>,
    pub looked: usize,
}

// The cell at which the search for a name starts.
fn start_cell(name: &[u8]) -> usize
    ensures { result ≡ start name.now }
{
    Fnv.words(name)[0] as usize % CELLS
}

// Where a walk along the cells stopped, and how many cells it went past before.
#[derive(Clone, Copy)]
pub(crate) struct Stop {
    at: usize,
    steps: usize,
}

impl Parts<'_> {
    // The first cell, upward and around from where the search for a name starts, that passes a test.
    fn walk<F: Fn(Cell) -> bool>(&self, name: &[u8], test: F) -> Option<Stop>
        requires callable { F.IsAlwaysCallable test }
        ensures { MatchOption result (NeverStops (F.post test) self.now.cells.now name.now 2048) (λ stop. StopsAt (F.post test) self.now.cells.now name.now stop.steps × (stop.at ≡ (start name.now + stop.steps) % 2048)) }
    {
        let start = start_cell(name);
        // Counted by hand: by the range's `find`, which proves too, a search takes 1.4 times as long.
        for steps in 0..CELLS {
            let at = (start + steps) % CELLS;
            if test(self.cells[at]) {
                return Some(Stop { at, steps });
            }
        }
        None
    }

    // Whether the search for a name ends at a cell: it was never used, or has the place of the name.
    fn ends(&self, cell: Cell, name: &[u8]) -> bool
        ensures { Decides result (Ends (contents self.now.rows.now) name.now cell) }
    {
        match cell {
            Cell::Never => true,
            Cell::Freed => false,
            Cell::Taken(place) => has_name(self.rows, place as usize, name),
        }
    }

    // Searches for a name, cell by cell.
    pub(crate) fn search(&self, name: &[u8]) -> Probe
        ensures { Search (contents self.now.rows.now) self.now.cells.now name.now result.place result.looked }
    {
        match self.walk(name, |cell| self.ends(cell, name)) {
            Some(stop) => Probe {
                place: self.cells[stop.at].place(),
                looked: stop.steps + 1,
            },
            None => Probe {
                place: None,
                looked: CELLS,
            },
        }
    }

    // The first cell, on the way of the search for a name, that no place is in.
    pub(crate) fn open_cell(&self, name: &[u8]) -> Option<usize>
        ensures { Opens self.now.cells.now name.now result }
    {
        let stop = self.walk(name, |cell| !matches!(cell, Cell::Taken(_)))?;
        Some(stop.at)
    }

    // The cell, on the way of the search for a name, that a place is in.
    pub(crate) fn cell_of(&self, name: &[u8], place: usize) -> Option<usize>
        ensures { MatchOption result ((j : ℕ) → j < 2048 → cell self.now.cells.now name.now j ≢ Placed place) (λ at. (at < 2048) × (slice_index_or self.now.cells.now at Unused ≡ Placed place)) }
    {
        let stop = self.walk(name, |cell| cell.place() == Some(place))?;
        Some(stop.at)
    }

    // A record comes to a place, and the place into a cell.
    pub(crate) fn put(&mut self, at: usize, place: usize, new: Record<'_>)
        requires cell_within { at < length self.old.cells.now }
        requires row_within { place < length self.old.rows.now }
        requires place_fits { place < 65536 }
        requires name_short { length new.name.now ≤ 128 }
        ensures rows { contents self.new.rows.now ≡ slice_set (contents self.old.rows.now) place (Just (given new.entry)) }
        ensures cells { self.new.cells.now ≡ slice_set self.old.cells.now at (Placed place) }
    {
        self.rows[place] = Row::filled(new);
        self.cells[at] = Cell::Taken(place as u16);
    }

    // The record at a place leaves, and its cell is freed.
    pub(crate) fn release(&mut self, at: usize, place: usize)
        requires cell_within { at < length self.old.cells.now }
        requires row_within { place < length self.old.rows.now }
        ensures rows { contents self.new.rows.now ≡ slice_set (contents self.old.rows.now) place Nothing }
        ensures cells { self.new.cells.now ≡ slice_set self.old.cells.now at Emptied }
    {
        self.rows[place] = Row::free();
        self.cells[at] = Cell::Freed;
    }
}
