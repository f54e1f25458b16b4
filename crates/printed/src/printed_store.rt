//! The store over a printed text that its owner lends.
ghost use Rattle.std.specs.Prelude.{◌≡◌, length};
ghost use Rattle.store.specs.Cells.{Sound};
ghost use Rattle.printed.specs.Texts.{Shown, text_cells};

mod methods;

use super::fault::StoreFault;

// A text, 16 bytes to a line, in which every line shows what its cell may hold.
#[derive(Drop)]
pub struct PrintedStore<'a> {
    bytes: &'a mut [u8],
    ghost long: { length bytes.now ≡ 576 },
    ghost shown: { Shown bytes.now },
    ghost sound: { Sound (text_cells bytes.now) },
}

// A text that was refused: what is wrong with it, and the text as it was.
#[derive(Drop)]
pub struct Refused<'a> {
    pub fault: StoreFault,
    pub bytes: &'a mut [u8],
}
