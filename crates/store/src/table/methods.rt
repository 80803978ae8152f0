// A table begun.
ghost use Rattle.std.specs.Prelude.{◌≡◌, length, replicate, None as Nothing, MatchResult};
ghost use Rattle.store.specs.Beginning.{Allowed, Unbegun};
ghost use Rattle.store.specs.Rows.{contents};

use super::Table;
use crate::lent::{check_places, clear_rows};
use crate::refusals::StoreFault;
use crate::row::Row;

impl<'a> Table<'a> {
    // A table of so many places, all free, over lent rows. A refusal hands the rows back as they were.
    pub fn new(places: usize, rows: &'a mut [Row]) -> Result<Table<'a>, (StoreFault, &'a mut [Row])>
        ensures { MatchResult result (λ t. Allowed places × (contents t.rows.now ≡ replicate places Nothing)) (λ e. Unbegun e.0 places (length rows.old) × (e.1.now ≡ rows.old)) }
    {
        if let Err(fault) = check_places(places, rows.len()) {
            return Err((fault, rows));
        }
        clear_rows(rows);
        Ok(Table { rows })
    }
}
