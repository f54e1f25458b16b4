//! A store as the text that is printed for it.
ghost use Rattle.std.specs.Prelude.{◌≡◌, ◌<◌};
ghost use Rattle.listing.specs.Stored.{line_of, store_lines, told_cell, told_count};

use super::lines::CellLine;
use printed::printing::print_line;
use std::array;
use store::content::cell_at;
use store::{Store, held};

// The 36 lines of a store.
pub fn store_text<S: Store>(store: &S) -> [u8; 576]
    ensures { result ≡ store_lines (S.Store.cells store.now) 36 }
{
    let lines: [[u8; 16]; 36] = array::from_fn(
        |k|
            requires { k < 36 }
            ensures { result ≡ line_of (S.Store.cells store.entry.now) k }
        {
            let (process, cell) = cell_at(k as u32);
            print_line(held(store, process, cell))
        },
    );
    let mut text = [0; 576];
    text.copy_from_slice(lines.as_flattened());
    text
}

// The line of a cell, counted from 0 by process and then by cell; none where it holds nothing.
pub fn cell_line<S: Store>(store: &S, k: u32) -> Option<CellLine>
    ensures { result ≡ told_cell (S.Store.cells store.now) k }
{
    let (process, cell) = cell_at(k);
    held(store, process, cell).map(|content| CellLine {
        process,
        cell,
        content,
    })
}

// How many cells hold something. A loop, since a chain of iterators costs two fifths more here.
pub fn count_cells<S: Store>(store: &S) -> usize
    ensures { result ≡ told_count (S.Store.cells store.now) 36 }
{
    let mut count = 0;
    for k in 0..36 {
        if cell_line(store, k).is_some() {
            count += 1;
        }
    }
    count
}
