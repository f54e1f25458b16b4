ghost use Rattle.std.specs.Prelude.{◌≡◌, ◌<◌, length, is_ok, if◌then◌else◌, Some, MatchResult};
ghost use Rattle.store.specs.Cells.{write_answer, written};
ghost use Rattle.store.specs.Ranges.{index};
ghost use Rattle.printed.specs.Faults.{TextWrong};
ghost use Rattle.printed.specs.Lines.{line};
ghost use Rattle.printed.specs.Stores.{store_text, store_cells};
ghost use Rattle.printed.specs.Texts.{Printed, with_line};

use super::super::printing::print_line;
use super::super::{inspect, read_line};
use super::{PrintedStore, Refused};
use store::Store;
use store::content::{Content, Refusal, index_of, is_fit};

// Overwrites the line k of a text, counted from 0.
fn put(text: &mut [u8], k: usize, line: &[u8; 16])
    requires { (k < 36) × (length text.old ≡ 576) }
    ensures { text.new ≡ with_line text.old k line.now }
{
    let at = 16 * k;
    text[at..at + 16].copy_from_slice(line);
}

impl<'a> PrintedStore<'a> {
    // The store that a text shows; `inspect` says of any bytes whether they are such a text.
    pub fn open(bytes: &'a mut [u8]) -> PrintedStore<'a>
        requires { Printed bytes.old }
        ensures same { store_text result ≡ bytes.old }
        ensures named { result.bytes.ghost_name ≡ bytes.entry.ghost_name }
    {
        PrintedStore { bytes }
    }

    // The store that a text shows; else the first thing that is wrong with it, as `inspect` says, and
    // the text, unchanged.
    pub fn try_open(bytes: &'a mut [u8]) -> Result<PrintedStore<'a>, Refused<'a>>
        ensures answer { MatchResult result (λ s. Printed bytes.old × (store_text s ≡ bytes.old)) (λ r. TextWrong bytes.old r.fault × (r.bytes.now ≡ bytes.old)) }
        ensures named { MatchResult result (λ s. s.bytes.ghost_name ≡ bytes.entry.ghost_name) (λ r. r.bytes.ghost_name ≡ bytes.entry.ghost_name) }
    {
        match inspect(bytes) {
            Ok(()) => Ok(PrintedStore::open(bytes)),
            Err(fault) => Err(Refused { fault, bytes }),
        }
    }
}

impl<'a> Store for PrintedStore<'a> {
    ghost cells = { store_cells };

    ghost sound = { λ x. x.sound };

    fn read(&self, process: u32, cell: u32) -> Result<Option<Content>, Refusal> {
        let k = index_of(process, cell)?;
        let (lines, _) = self.bytes.as_chunks::<16>();
        Ok(read_line(&lines[k], 0).unwrap())
    }

    // Beside what every store promises: one line is overwritten in place, by what is printed for the
    // content.
    fn write(&mut self, process: u32, cell: u32, content: Content) -> Result<(), Refusal>
        ensures answer { result ≡ write_answer process cell content }
        ensures after { store_cells self.new ≡ written (store_cells self.old) process cell content }
        ensures text { store_text self.new ≡ (if is_ok result then with_line (store_text self.old) (index process cell) (line (Some content)) else store_text self.old) }
        ensures named { self.new.bytes.ghost_name ≡ self.old.bytes.ghost_name }
    {
        let k = index_of(process, cell)?;
        if !is_fit(cell, content) {
            return Err(Refusal::OutOfRange);
        }
        put(self.bytes, k, &print_line(Some(content)));
        Ok(())
    }
}
