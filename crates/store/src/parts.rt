// Rows, and the cells by which they are found.
ghost use Rattle.std.specs.Prelude.{◌≡◌, length};

use crate::cell::Cell;
use crate::row::Row;

mod methods;

pub use methods::Probe;

// How many cells there are.
pub const CELLS: usize = 2048;

// Lent rows and lent cells; how they fit together is for the index to say.
#[derive(Drop)]
pub struct Parts<'a> {
    pub(crate) rows: &'a mut [Row],
    pub(crate) cells: &'a mut [Cell],
    ghost all: { length cells.now ≡ 2048 },
}
