// The hashed index.
ghost use Rattle.std.specs.Prelude.{◌≡◌, ◌≤◌, length};
ghost use Rattle.store.specs.Contents.{Unique};
ghost use Rattle.store.specs.Indexed.{Points, Once, Reaches, Paired};
ghost use Rattle.store.specs.Rows.{contents};

use crate::parts::Parts;

mod impls;
mod methods;

// Rows in the caller's memory, as a table has them, found by 2,048 cells more.
#[derive(Drop)]
pub struct HashedIndex<'a> {
    parts: Parts<'a>,
    ghost some: { 1 ≤ length parts.rows.now },
    ghost most: { length parts.rows.now ≤ 1024 },
    ghost unique: { Unique (contents parts.rows.now) },
    ghost points: { Points (contents parts.rows.now) parts.cells.now },
    ghost once: { Once parts.cells.now },
    ghost reaches: { Reaches (contents parts.rows.now) parts.cells.now },
    ghost paired: { Paired (contents parts.rows.now) parts.cells.now },
}
