//! Stable cells: four for each of nine processes.
#![tactic(auto)]

ghost use Rattle.std.specs.Prelude.{◌≡◌};
ghost use Rattle.store.specs.Cells.{Cells, Sound, held, read_answer, write_answer, written};

pub mod content;
pub mod lent;
pub mod table;

use content::{Content, Refusal};

// A store, by what it means. It is asked by numbers, of which those that no cell has are refused; a `CellName`
// would ask more of a caller.
pub trait Store {
    // What each cell of each process holds.
    ghost cells: { Self → Cells };

    // What a cell holds.
    fn read(&self, process: u32, cell: u32) -> Result<Option<Content>, Refusal>
        ensures { result ≡ read_answer (cells self.now) process cell };

    // Makes a cell hold a content.
    fn write(&mut self, process: u32, cell: u32, content: Content) -> Result<(), Refusal>
        ensures answer { result ≡ write_answer process cell content }
        ensures after { cells self.new ≡ written (cells self.old) process cell content };

    // What it holds is in range.
    ghost sound: { (x : Self) → Sound (cells x) };
}

// What a cell holds; none where there is no such cell.
pub fn held<S: Store>(store: &S, process: u32, cell: u32) -> Option<Content>
    ensures { result ≡ held (S.Store.cells store.now) process cell }
{
    store.read(process, cell).ok().flatten()
}

#[cfg(test)]
mod tests {
    use super::Store;
    use super::content::{CellName, Content, Refusal};
    use super::table::Table;

    // The number of a write's answer, 0 for an accepted one.
    fn answer(table: &mut Table, process: u32, cell: u32, number: u32, stamp: u32) -> u32 {
        table
            .write(process, cell, Content { number, stamp })
            .map_or_else(Refusal::number, |()| 0)
    }

    #[test]
    fn writes_and_what_is_read_back(rt: HostRuntime) {
        let mut table = Table::new();
        let [proposal, round, pair, decision] = [
            CellName::Proposal,
            CellName::Round,
            CellName::Pair,
            CellName::Decision,
        ]
        .map(|cell| cell.number());
        for (process, cell, number, stamp, told) in [
            (1, proposal, 99_999_999, 0, 0),
            (1, proposal, 100_000_000, 0, 14),
            (1, proposal, 0, 0, 14),
            (1, proposal, 407, 1, 14),
            (9, round, 999_999, 0, 0),
            (9, round, 1_000_000, 0, 14),
            (9, pair, 407, 999_999, 0),
            (9, pair, 407, 1_000_000, 14),
            (2, decision, 407, 1, 14),
            (0, proposal, 407, 0, 13),
            (10, proposal, 0, 0, 13),
            (1, 0, 407, 0, 13),
            (1, 5, 0, 1_000_000, 13),
            (u32::MAX, u32::MAX, u32::MAX, u32::MAX, 13),
        ] {
            assert_eq!(rt; answer(&mut table, process, cell, number, stamp), told);
        }
        let mut held = 0;
        for process in 1..=9 {
            for cell in 1..=4 {
                if let Ok(Some(_)) = table.read(process, cell) {
                    held ^= process * 8 + cell;
                }
            }
        }
        assert_eq!(rt; held, (8 + proposal) ^ (72 + round) ^ (72 + pair));
        assert_eq!(rt;
            table.read(9, pair).ok(),
            Some(Some(Content {
                number: 407,
                stamp: 999_999,
            }))
        );
        assert!(rt; table.read(10, 1).is_err());
    }
}
