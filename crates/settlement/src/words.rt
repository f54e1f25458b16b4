//! How a call is told.
ghost use Rattle.std.specs.Prelude.{Some};
ghost use Rattle.settlement.specs.Words.{call_text, cut_text};

use agreement::call::{Call, PanelCall};
use std::fmt;

// A call: its name, its process or place, the reading of a proposal, and the cut if it has one.
#[derive(Clone, Copy)]
pub struct Told<'c> {
    pub call: PanelCall<'c>,
}

// The cut of a call, after a blank.
#[derive(Clone, Copy)]
struct Cut(Option<u32>);

impl fmt::Display for Cut {
    ghost output = { λ cut. Some (cut_text cut.0) };

    fn fmt<W: fmt::Write>(&self, f: &mut fmt::Formatter<W>) -> fmt::Result {
        match self.0 {
            None => Ok(()),
            Some(k) => write!(f, " cut {k}"),
        }
    }
}

impl fmt::Display for Told<'_> {
    ghost output = { λ told. Some (call_text told.call) };

    fn fmt<W: fmt::Write>(&self, f: &mut fmt::Formatter<W>) -> fmt::Result {
        match self.call {
            Call::Propose(p, reading, cut) => write!(f, "propose {p} {reading}{}", Cut(cut)),
            Call::Recover(p, cut) => write!(f, "recover {p}{}", Cut(cut)),
            Call::Look(p, _, cut) => write!(f, "look {p}{}", Cut(cut)),
            Call::Deliver(place, cut) => write!(f, "deliver {place}{}", Cut(cut)),
            Call::Again(p, cut) => write!(f, "again {p}{}", Cut(cut)),
            Call::Lose(place) => write!(f, "lose {place}"),
            Call::Crash(p) => write!(f, "crash {p}"),
        }
    }
}
