//! Entries in a row.
ghost use Rattle.std.specs.Prelude.{◌≡◌, ℕ, ◌+◌, List, [], if◌then◌else◌, None, Option, nat_lt, slice_set};
ghost use Rattle.script.specs.Calls.{epoch};
ghost use Rattle.script.specs.Rows.{beyond, entries, listed, row_of};
ghost use Rattle.script.specs.Words.{number, words};

use super::words::{next_word, read_number};
use std::convert::AsSlice;

// The first ten entries of a list, since one of more is as wrong as one of ten. An array with a count, since a
// row is copied and takes no heap; no plan of actions, which must have room, while a row drops what is beyond ten.
#[derive(Clone, Copy, PartialEq, Eq, Debug)]
pub struct Row<E> {
    items: [E; 10],
    count: usize,
}

// What a word of a list stands for.
pub trait Entry: Copy {
    // The entry that a word is.
    ghost reads: { List ℕ → Option Self };

    // What stands in a free place.
    ghost free: { Self };

    fn read(word: &[u8]) -> Option<Self>
        ensures { result ≡ reads word.now };

    // Not `Default`, whose contract names no value.
    fn empty() -> Self
        ensures { result ≡ free };
}

// A weight.
impl Entry for u32 {
    ghost reads = { number };

    ghost free = { 0 };

    fn read(word: &[u8]) -> Option<u32> {
        read_number(word)
    }

    fn empty() -> u32 {
        0
    }
}

// An epoch, or - for a process that is not trusted.
impl Entry for Option<u32> {
    ghost reads = { epoch };

    ghost free = { None };

    fn read(word: &[u8]) -> Option<Option<u32>> {
        match word {
            b"-" => Some(None),
            _ => read_number(word).map(Some),
        }
    }

    fn empty() -> Option<u32> {
        None
    }
}

impl<E: Entry> Row<E> {
    // A row of no entries.
    fn new() -> Row<E>
        ensures { result ≡ row_of E.Entry.free [] }
    {
        Row {
            items: [E::empty(); 10],
            count: 0,
        }
    }

    // Puts an entry at the end, if fewer than ten stand there.
    fn push(&mut self, x: E)
        ensures items { self.new.items ≡ (if nat_lt self.old.count 10 then slice_set self.old.items self.old.count x else self.old.items) }
        ensures count { self.new.count ≡ (if nat_lt self.old.count 10 then self.old.count + 1 else self.old.count) }
    {
        if self.count < 10 {
            self.items[self.count] = x;
            self.count += 1;
        }
    }

    // The entries. At most ten by `min`, and not by a fact of the row, which its definition would then owe as well.
    pub fn as_slice(&self) -> &[E]
        ensures { result.now ≡ listed self.now }
    {
        &self.items[..self.count.min(10)]
    }
}

// A row is lent as its entries.
impl<E: Entry> AsSlice<E> for Row<E> {
    ghost items = { listed };

    fn as_slice(&self) -> &[E] {
        self.as_slice()
    }
}

// The entries at the front of a line, and what follows them.
pub(crate) fn read_row<E: Entry>(line: &[u8]) -> (Row<E>, &[u8])
    ensures row { result.0 ≡ row_of E.Entry.free (entries E.Entry.reads (words line.now)) }
    ensures rest { words result.1.now ≡ beyond E.Entry.reads (words line.now) }
{
    let mut row = Row::new();
    let mut rest = line;
    while let Some((word, after)) = next_word(rest)
        && let Some(entry) = E::read(word)
    {
        row.push(entry);
        rest = after;
    }
    (row, rest)
}
