//! What a process remembers, and what it does.
ghost use Rattle.std.specs.Prelude.{Some};
ghost use Rattle.process.specs.Names.{phase_name};

use super::message::Message;
use quorum::ProcessSet;
use std::fmt;
use store::content::{CellName, Content};
use tray::kinds::Estimate;

#[derive(Clone, Copy, Default, PartialEq, Eq, Debug)]
pub enum Phase {
    #[default]
    Idle,
    Waiting,
    Acked,
    Gathering,
    Confirming,
    Done,
}

impl fmt::Display for Phase {
    ghost output = { λ f. Some (phase_name f) };

    fn fmt<W: fmt::Write>(&self, f: &mut fmt::Formatter<W>) -> fmt::Result {
        match *self {
            Phase::Idle => write!(f, "idle"),
            Phase::Waiting => write!(f, "waiting"),
            Phase::Acked => write!(f, "acked"),
            Phase::Gathering => write!(f, "gathering"),
            Phase::Confirming => write!(f, "confirming"),
            Phase::Done => write!(f, "done"),
        }
    }
}

// What is indexed by process has process k at k - 1. These are three arrays, and not one of a struct, since a rule
// is asked for the set of acknowledgers as it stands, and a round begins by clearing two of them.
#[derive(Clone, Copy, Default)]
pub struct Memory {
    pub phase: Phase,
    pub round: u32,
    pub reading: u32,
    pub stamp: u32,
    // the highest round of a message that was delivered, 0 for none as in a message without a round, so that `max`
    // is all that hearing needs
    pub heard: u32,
    // the epoch of the round's coordinator, once noted
    pub epoch: Option<u32>,
    pub kept: [Option<Estimate>; 9],
    pub acknowledgers: ProcessSet,
    // the last message to each other process
    pub last: [Option<Message>; 9],
}

// What a panel keeps of a process. No Option of a memory, since what a panel answers of a process would then be an
// Option of an Option.
#[derive(Clone, Copy)]
pub enum Status {
    Down,
    Up(Memory),
}

// One cell written, or one message sent.
#[derive(Clone, Copy)]
pub enum Action {
    Write(CellName, Content),
    Send(Message),
}

// A process's own four cells.
#[derive(Clone, Copy, Default)]
pub struct OwnCells {
    pub proposal: Option<Content>,
    pub round: Option<Content>,
    pub pair: Option<Content>,
    pub decision: Option<Content>,
}
