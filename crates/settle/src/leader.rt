//! A coordinator through its first round.
ghost use Rattle.std.specs.Prelude.{◌≡◌, map, if◌then◌else◌, Some, None};
ghost use Rattle.process.specs.Messages.{is_reading};
ghost use Rattle.process.specs.Turns.{step};
ghost use Rattle.settle.specs.Leader.{led, part_at, said, told};
ghost use Rattle.std.specs.Option.{option_map};

use process::identity::{Letter, ProcessId};
use process::memory::OwnCells;
use process::message::{Kind, Message};
use process::turn::Turn;
use process::turn::steps::{deliver_turn, propose_turn, recover_turn};
use quorum::majority::Majority;
use std::fmt;

// Process 2 of three, the coordinator of round 1, recovers with nothing in its cells and proposes `own`;
// then process 1 sends it `other` as its estimate, and an ACK. None where `other` is no reading.
pub fn lead_round(own: u32, other: u32) -> Option<[Turn; 3]>
    ensures { option_map (map step) result ≡ (if is_reading other then Some (led own other) else None) }
{
    let rule = Majority::new(3).ok()?;
    let p = ProcessId::new(&rule, 2)?;
    let estimate = Letter::new(&rule, to_coordinator(Kind::Estimate, other))?;
    let ack = Letter::new(&rule, to_coordinator(Kind::Ack, 0))?;
    let idle = recover_turn(&rule, p, OwnCells::default());
    let proposed = propose_turn(&rule, p, idle.memory, own);
    let chosen = deliver_turn(&rule, proposed.memory, estimate, None);
    let decided = deliver_turn(&rule, chosen.memory, ack, None);
    Some([proposed, chosen, decided])
}

// A message of process 1 to process 2 in round 1.
fn to_coordinator(kind: Kind, reading: u32) -> Message
    ensures { result ≡ told kind reading }
{
    Message {
        sender: 1,
        addressee: 2,
        kind,
        round: 1,
        reading,
        stamp: 0,
    }
}

// A part of the round.
#[derive(Clone, Copy, PartialEq, Eq, Debug)]
pub enum Part {
    Proposal,
    Estimate,
    Ack,
}

// The part at a place of the round, counted from 0; the parts are not in the turns, since what a turn is has a promise
// of its own.
pub fn part_at(i: usize) -> Part
    ensures { result ≡ part_at i }
{
    match i {
        0 => Part::Proposal,
        1 => Part::Estimate,
        _ => Part::Ack,
    }
}

// What happens in a part.
impl fmt::Display for Part {
    ghost output = { λ part. Some (said part) };

    fn fmt<W: fmt::Write>(&self, f: &mut fmt::Formatter<W>) -> fmt::Result {
        match self {
            Part::Proposal => write!(f, "proposes"),
            Part::Estimate => write!(f, "is given an estimate"),
            Part::Ack => write!(f, "is given an ACK"),
        }
    }
}
