//! Messages between processes.
ghost use Rattle.std.specs.Prelude.{◌≡◌, Some};
ghost use Rattle.process.specs.Messages.{is_reading, is_round, well_formed};
ghost use Rattle.process.specs.Names.{kind_name};

use std::fmt;
use store::content::{MAX_READING, MAX_ROUND};

#[derive(Clone, Copy, Default, PartialEq, Eq, Debug)]
pub enum Kind {
    #[default]
    NewRound,
    Estimate,
    NewEstimate,
    Ack,
    Decide,
}

#[derive(Clone, Copy, Default, PartialEq, Eq, Debug)]
pub struct Message {
    pub sender: u32,
    pub addressee: u32,
    pub kind: Kind,
    pub round: u32,
    pub reading: u32,
    pub stamp: u32,
}

impl fmt::Display for Kind {
    ghost output = { λ k. Some (kind_name k) };

    fn fmt<W: fmt::Write>(&self, f: &mut fmt::Formatter<W>) -> fmt::Result {
        match *self {
            Kind::NewRound => write!(f, "NEWROUND"),
            Kind::Estimate => write!(f, "ESTIMATE"),
            Kind::NewEstimate => write!(f, "NEWESTIMATE"),
            Kind::Ack => write!(f, "ACK"),
            Kind::Decide => write!(f, "DECIDE"),
        }
    }
}

// Whether a number is a round.
pub fn is_round(n: u32) -> bool
    ensures { result ≡ is_round n }
{
    (1..=MAX_ROUND).contains(&n)
}

// Whether a number is a reading.
pub fn is_reading(n: u32) -> bool
    ensures { result ≡ is_reading n }
{
    (1..=MAX_READING).contains(&n)
}

impl Message {
    // Whether sender and addressee are two of n processes, and every other field is one that the kind
    // may have.
    pub fn is_well_formed(&self, n: u32) -> bool
        ensures { result ≡ well_formed n self.now }
    {
        let processes = 1..=n;
        let between = processes.contains(&self.sender)
            && processes.contains(&self.addressee)
            && self.sender != self.addressee;
        between
            && match self.kind {
                Kind::NewRound | Kind::Ack => {
                    is_round(self.round) && self.reading == 0 && self.stamp == 0
                }
                Kind::Estimate => {
                    is_round(self.round) && is_reading(self.reading) && self.stamp <= MAX_ROUND
                }
                Kind::NewEstimate => {
                    is_round(self.round) && is_reading(self.reading) && self.stamp == 0
                }
                Kind::Decide => self.round == 0 && is_reading(self.reading) && self.stamp == 0,
            }
    }
}
