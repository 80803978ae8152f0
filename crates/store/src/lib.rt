// Stores of catalogue rows: a fixed number of places, each free or with a row, no name twice.
#![tactic(auto)]

mod cell;
mod index;
mod laws;
mod lent;
mod parts;
mod records;
mod refusals;
mod row;
mod stores;
mod table;

pub use cell::Cell;
pub use index::HashedIndex;
pub use laws::search_law;
pub use parts::{CELLS, Probe};
pub use records::{Record, good_name, good_worth};
pub use refusals::StoreFault;
pub use row::Row;
pub use stores::Store;
pub use table::Table;
