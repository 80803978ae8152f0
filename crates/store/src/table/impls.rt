// A table is a store. What it does as an index does stands in `lent` and in the trait; each hands its own rows on.
ghost use Rattle.store.specs.Rows.{contents};

use super::Table;
use crate::lent::{free_place, place_of, row_at};
use crate::records::Record;
use crate::refusals::StoreFault;
use crate::row::Row;
use crate::stores::Store;

impl Store for Table<'_> {
    ghost rows = { λ t. contents t.rows.now };

    fn len(&self) -> usize {
        self.rows.len()
    }

    fn find(&self, name: &[u8]) -> Option<usize> {
        place_of(self.rows, name)
    }

    fn add(&mut self, new: Record<'_>) -> Result<usize, StoreFault> {
        let place = self.place_for(new).ok_or(StoreFault::NotAdded)?;
        self.rows[place] = Row::filled(new);
        Ok(place)
    }

    fn remove(&mut self, place: usize) -> Result<(), StoreFault> {
        if self.row(place).is_none() {
            return Err(StoreFault::NoRow);
        }
        self.rows[place] = Row::free();
        Ok(())
    }

    fn free_place(&self) -> Option<usize> {
        free_place(self.rows)
    }

    fn row(&self, place: usize) -> Option<Row> {
        row_at(self.rows, place)
    }
}
