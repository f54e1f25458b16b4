//! The elements among which a best one is sought.
ghost use Rattle.tray.specs.Kinds.{prefers_estimate, prefers_round};
ghost use Rattle.std.proofs.Common.{rules};

use super::preference::Preference;

// What a process offers in a round: its reading, and the stamp, the round in which it took it over.
#[derive(Clone, Copy, Default, PartialEq, Eq, Debug)]
pub struct Estimate {
    pub sender: u32,
    pub reading: u32,
    pub stamp: u32,
}

// The number of a round.
#[derive(Clone, Copy, Default, PartialEq, Eq, Debug)]
pub struct Round {
    pub number: u32,
}

// A greater stamp is preferred, and at equal stamps a lower sender. It is no `Ord`: the reading does not
// count, so different estimates may tie.
impl Preference for Estimate {
    ghost prefers = { prefers_estimate };

    ghost total = { Prim.search rules };

    ghost transitive = { Prim.search rules };

    fn at_least(&self, other: &Estimate) -> bool {
        self.stamp > other.stamp || self.stamp == other.stamp && self.sender <= other.sender
    }
}

// A smaller round is preferred; by `Ord` the greater would come out on top.
impl Preference for Round {
    ghost prefers = { prefers_round };

    ghost total = { Prim.search rules };

    ghost transitive = { Prim.search rules };

    fn at_least(&self, other: &Round) -> bool {
        self.number <= other.number
    }
}
