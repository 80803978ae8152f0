// The plain table.
ghost use Rattle.std.specs.Prelude.{◌≤◌, length};
ghost use Rattle.store.specs.Contents.{Unique};
ghost use Rattle.store.specs.Rows.{contents};

use crate::row::Row;

mod impls;
mod methods;

// Rows in the caller's memory, searched one after another.
#[derive(Drop)]
pub struct Table<'a> {
    rows: &'a mut [Row],
    ghost some: { 1 ≤ length rows.now },
    ghost most: { length rows.now ≤ 1024 },
    ghost unique: { Unique (contents rows.now) },
}
