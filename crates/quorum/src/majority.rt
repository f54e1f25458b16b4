//! The majority of n processes.
ghost use Rattle.std.specs.Prelude.{◌≡◌, ◌≤◌, length, is_ok, IfOk};
ghost use Rattle.quorum.specs.Rules.{members, majority, is_size};
ghost use Rattle.quorum.specs.Weighing.{majority_shares, majority_grows, majority_whole};

use super::{CannotBeMade, ProcessSet, QuorumRule};

// A set is enough when twice its members exceed n. The bounds of n stand here and at `Weights`: a size as a
// type would be longer than both.
#[derive(Clone, Copy)]
pub struct Majority {
    n: u32,
    ghost low: { 1 ≤ n },
    ghost high: { n ≤ 9 },
}

// How many members the set has. By a sum: `filter` and `count` branch on each process, which costs twice as much.
fn count_members(set: &[bool]) -> u32
    requires { length set.now ≤ 9 }
    ensures { result ≡ members set.now }
{
    set.iter().map(|member| u32::from(*member)).sum()
}

impl Majority {
    // The majority of n processes; n is from 1 to 9.
    pub fn new(n: u32) -> Result<Majority, CannotBeMade>
        ensures test { is_ok result ≡ is_size n }
        ensures kept { IfOk result (λ x. x.n ≡ n) }
    {
        if !(1..=9).contains(&n) {
            return Err(CannotBeMade);
        }
        Ok(Majority { n })
    }
}

impl QuorumRule for Majority {
    ghost processes = { λ x. x.n };

    ghost quorum = { λ x. majority x.n };

    ghost sized = { λ x. (x.low, x.high) };

    ghost shares = { λ x. majority_shares x.n };

    ghost grows = { λ x. majority_grows x.n };

    ghost whole = { λ x. majority_whole x.n x.low };

    fn size(&self) -> u32 {
        self.n
    }

    fn enough(&self, set: &ProcessSet) -> bool {
        self.n < 2 * count_members(&set[..self.n as usize])
    }
}
