//! The line that is told of a process.
ghost use Rattle.listing.specs.Texts.{epoch_text, process_text};
ghost use Rattle.std.specs.Prelude.{Some};

use super::listed::{Listed, members_of};
use process::memory::{Memory, Status};
use std::fmt;

// A process, and its record.
#[derive(Clone, Copy)]
pub struct ProcessLine {
    pub process: u32,
    pub status: Status,
}

// A noted epoch, or - where there is none; an Option prints nothing of itself.
#[derive(Clone, Copy)]
struct Epoch(Option<u32>);

impl fmt::Display for Epoch {
    ghost output = { λ e. Some (epoch_text e.0) };

    fn fmt<W: fmt::Write>(&self, f: &mut fmt::Formatter<W>) -> fmt::Result {
        match self.0 {
            None => write!(f, "-"),
            Some(n) => write!(f, "{n}"),
        }
    }
}

impl fmt::Display for ProcessLine {
    ghost output = { λ l. Some (process_text l) };

    fn fmt<W: fmt::Write>(&self, f: &mut fmt::Formatter<W>) -> fmt::Result {
        let p = self.process;
        match self.status {
            Status::Down => write!(f, "process {p} down"),
            Status::Up(memory) => {
                let Memory {
                    phase,
                    round,
                    reading,
                    stamp,
                    heard,
                    ..
                } = memory;
                let epoch = Epoch(memory.epoch);
                let kept = Listed { slots: memory.kept };
                let acks = members_of(&memory.acknowledgers);
                let last = Listed { slots: memory.last };
                write!(
                    f,
                    "process {p} {phase} round {round} reading {reading} stamp {stamp} heard {heard} epoch {epoch} kept{kept} acks{acks} last{last}"
                )
            }
        }
    }
}
