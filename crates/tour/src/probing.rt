// Stores that can say how long a search was.
use store::{HashedIndex, Store, Table};

pub trait Probing: Store {
    // How many cells the search for a name looks at, where the store has cells.
    fn probes(&self, _name: &[u8]) -> Option<usize> {
        None
    }
}

impl Probing for Table<'_> {}

impl Probing for HashedIndex<'_> {
    fn probes(&self, name: &[u8]) -> Option<usize> {
        Some(self.search(name).looked)
    }
}
