// Cells of the hashed index.
ghost use Rattle.std.specs.Prelude.{◌≡◌};
ghost use Rattle.store.specs.Search.{place_in};

// A cell that was never used, one that was freed, or one with the place of a row.
#[derive(Clone, Copy, PartialEq, Eq, Debug)]
pub enum Cell {
    Never,
    Freed,
    Taken(u16),
}

impl Cell {
    // The place in a cell.
    pub(crate) fn place(self) -> Option<usize>
        ensures { result ≡ place_in self }
    {
        match self {
            Cell::Taken(place) => Some(place as usize),
            _ => None,
        }
    }
}
