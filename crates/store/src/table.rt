//! A store in memory.
ghost use Rattle.std.specs.Prelude.{None, slice_index_or};
ghost use Rattle.store.specs.Cells.{Sound, in_row};

mod methods;

use super::content::Content;

// A plain table, the cells in one row.
#[derive(Drop)]
pub struct Table {
    row: [Option<Content>; 36],
    ghost sound: { Sound (in_row (λ k. slice_index_or row k None)) },
}
