ghost use Rattle.std.specs.Prelude.{◌≡◌};
ghost use Rattle.store.specs.Cells.{absent};
ghost use Rattle.store.specs.Tables.{table_cells};

use super::super::Store;
use super::super::content::{Content, Refusal, index_of, is_fit};
use super::Table;

impl Table {
    // A table whose cells are all absent.
    pub fn new() -> Table
        ensures { table_cells result ≡ absent }
    {
        Table { row: [None; 36] }
    }
}

impl Store for Table {
    ghost cells = { table_cells };

    ghost sound = { λ x. x.sound };

    fn read(&self, process: u32, cell: u32) -> Result<Option<Content>, Refusal> {
        let k = index_of(process, cell)?;
        Ok(self.row[k])
    }

    fn write(&mut self, process: u32, cell: u32, content: Content) -> Result<(), Refusal> {
        let k = index_of(process, cell)?;
        if !is_fit(cell, content) {
            return Err(Refusal::OutOfRange);
        }
        self.row[k] = Some(content);
        Ok(())
    }
}
