// A hashed index begun and searched.
ghost use Rattle.std.specs.Prelude.{◌≡◌, length, replicate, None as Nothing, MatchResult};
ghost use Rattle.store.specs.declared.cell.Cell.TheVariants.{Never as Unused};
ghost use Rattle.store.specs.Beginning.{Allowed, Unindexed};
ghost use Rattle.store.specs.Rows.{contents};
ghost use Rattle.store.specs.Search.{Search};

use super::HashedIndex;
use crate::cell::Cell;
use crate::lent::{check_places, clear_rows};
use crate::parts::{CELLS, Parts, Probe};
use crate::refusals::StoreFault;
use crate::row::Row;

// Every cell becomes one that was never used.
fn clear_cells(cells: &mut [Cell])
    ensures { cells.new ≡ replicate (length cells.old) Unused }
{
    cells.fill(Cell::Never);
}

impl<'a> HashedIndex<'a> {
    // An index of so many places, all free, over lent rows and 2,048 lent cells. A refusal hands both back as they were.
    pub fn new(
        places: usize,
        rows: &'a mut [Row],
        cells: &'a mut [Cell],
    ) -> Result<HashedIndex<'a>, (StoreFault, &'a mut [Row], &'a mut [Cell])>
        ensures { MatchResult result (λ x. Allowed places × (contents x.parts.rows.now ≡ replicate places Nothing) × (x.parts.cells.now ≡ replicate 2048 Unused)) (λ e. Unindexed e.0 places (length rows.old) (length cells.old) × (e.1.now ≡ rows.old) × (e.2.now ≡ cells.old)) }
    {
        if let Err(fault) = check_places(places, rows.len()) {
            return Err((fault, rows, cells));
        }
        if cells.len() != CELLS {
            return Err((StoreFault::Length, rows, cells));
        }
        clear_rows(rows);
        clear_cells(cells);
        Ok(HashedIndex {
            parts: Parts { rows, cells },
        })
    }

    // Searches for a name; how many cells were looked at is answered too.
    pub fn search(&self, name: &[u8]) -> Probe
        ensures { Search (contents self.now.parts.rows.now) self.now.parts.cells.now name.now result.place result.looked }
    {
        self.parts.search(name)
    }
}
