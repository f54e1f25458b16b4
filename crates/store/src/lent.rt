//! A store that is lent is a store.
use super::Store;
use super::content::{Content, Refusal};

// It means what the store behind the reference means.
impl<'b, S: Store> Store for &'b mut S {
    ghost cells = { λ s. S.Store.cells s.now };

    ghost sound = { λ s. S.Store.sound s.now };

    fn read(&self, process: u32, cell: u32) -> Result<Option<Content>, Refusal> {
        (**self).read(process, cell)
    }

    fn write(&mut self, process: u32, cell: u32, content: Content) -> Result<(), Refusal> {
        (**self).write(process, cell, content)
    }
}
