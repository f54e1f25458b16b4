//! Lists of a process's record.
ghost use Rattle.std.specs.Prelude.{◌≡◌, ℕ, List, ◌++◌, Some, codes, decimal};
ghost use Rattle.listing.specs.Lists.{list_text, members_from};
ghost use Rattle.listing.specs.Texts.{last_text, offer_text};
ghost use Rattle.std.specs.Fmt.{WritesOnOk};

use process::message::Message;
use quorum::ProcessSet;
use std::{array, fmt};
use tray::kinds::Estimate;

// What there is for each process.
#[derive(Drop)]
pub(crate) struct Listed<T> {
    pub slots: [Option<T>; 9],
}

// What is written of an entry. Not `Display`, since a message is told in another form in the tray, and a number has
// its own.
pub(crate) trait Written {
    ghost text: { Self → List ℕ };

    // A blank, and the entry.
    fn put<W: fmt::Write>(&self, f: &mut fmt::Formatter<W>) -> fmt::Result
        ensures { WritesOnOk W.Write.write_str_gives f.old result (codes " " ++ text self.now) f.new };
}

// A process.
impl Written for u32 {
    ghost text = { decimal };

    fn put<W: fmt::Write>(&self, f: &mut fmt::Formatter<W>) -> fmt::Result {
        write!(f, " {self}")
    }
}

// An estimate that is kept.
impl Written for Estimate {
    ghost text = { offer_text };

    fn put<W: fmt::Write>(&self, f: &mut fmt::Formatter<W>) -> fmt::Result {
        let Estimate {
            sender,
            reading,
            stamp,
        } = *self;
        write!(f, " {sender}:{reading}:{stamp}")
    }
}

// A last message.
impl Written for Message {
    ghost text = { last_text };

    fn put<W: fmt::Write>(&self, f: &mut fmt::Formatter<W>) -> fmt::Result {
        let Message {
            addressee,
            kind,
            round,
            reading,
            stamp,
            ..
        } = *self;
        write!(f, " {addressee}:{kind}:{round}:{reading}:{stamp}")
    }
}

// The entries of a list, a blank before each, or ` -` where there is none.
fn put_all<T: Written, W: fmt::Write>(slots: &[Option<T>], f: &mut fmt::Formatter<W>) -> fmt::Result
    ensures { WritesOnOk W.Write.write_str_gives f.old result (list_text T.Written.text slots.now) f.new }
{
    if slots.iter().all(Option::is_none) {
        return f.write_str(" -");
    }
    for x in slots.iter().flatten() {
        x.put(f)?;
    }
    Ok(())
}

impl<T: Written> fmt::Display for Listed<T> {
    ghost output = { λ l. Some (list_text T.Written.text l.slots) };

    fn fmt<W: fmt::Write>(&self, f: &mut fmt::Formatter<W>) -> fmt::Result {
        put_all(&self.slots, f)
    }
}

// The members of a set, by their numbers.
pub(crate) fn members_of(set: &ProcessSet) -> Listed<u32>
    ensures { result.slots ≡ members_from 1 set.now }
{
    Listed {
        slots: array::from_fn(|i| set[i].then_some(i as u32 + 1)),
    }
}
