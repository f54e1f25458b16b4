//! A step in progress: a process's memory, and the actions so far.
ghost use Rattle.std.specs.Prelude.{◌≡◌, ◌≤◌, length};

pub mod steps;

use super::memory::{Action, Memory};

// Actions in order. No step has more than 28. A fixed array and its length, since there is no heap; no model,
// since a plan is copied, and a model that is copied gives back the places beyond the length too.
#[derive(Clone, Copy)]
pub struct Plan {
    actions: [Action; 32],
    len: usize,
    ghost long: { length actions ≡ 32 },
    ghost fits: { len ≤ 32 },
}

#[derive(Clone, Copy)]
pub struct Turn {
    pub memory: Memory,
    pub plan: Plan,
}

// A look must enter a round, and none up to 999,999 fits.
#[derive(Clone, Copy, PartialEq, Eq, Debug)]
pub struct NoRound;
