//! Quorum rules: which sets of processes are enough.
#![tactic(auto)]

ghost use Rattle.std.specs.Prelude.{◌≡◌, ℕ, ◌≤◌, Bool, true, List};
ghost use Rattle.quorum.specs.Laws.{Shares, Grows, Whole};
ghost use Rattle.quorum.specs.Refused.{number};

pub mod grid;
pub mod majority;
pub mod weights;

// A set of processes: process k is a member where the element at k - 1 is true.
pub type ProcessSet = [bool; 9];

// A rule that cannot be made is refused.
#[derive(Clone, Copy, PartialEq, Eq, Debug)]
pub struct CannotBeMade;

impl CannotBeMade {
    // The number that a caller is told.
    pub fn number(self) -> u32
        ensures { result ≡ number self }
    {
        15
    }
}

// A rule says of every set of processes whether it is enough.
pub trait QuorumRule {
    // How many processes there are.
    ghost processes: { Self → ℕ };

    // Whether a set is enough.
    ghost quorum: { Self → List Bool → Bool };

    fn size(&self) -> u32
        ensures { result ≡ processes self.now };

    fn enough(&self, set: &ProcessSet) -> bool
        ensures { result ≡ quorum self.now set.now };

    ghost sized: { (x : Self) → (1 ≤ processes x) × (processes x ≤ 9) };

    ghost shares: { (x : Self) → Shares (processes x) (quorum x) };

    ghost grows: { (x : Self) → Grows (processes x) (quorum x) };

    ghost whole: { (x : Self) → Whole (processes x) (quorum x) };
}

#[cfg(test)]
mod tests {
    use super::grid::Grid;
    use super::majority::Majority;
    use super::weights::Weights;
    use super::{CannotBeMade, ProcessSet, QuorumRule};
    use std::test::Fail;

    // The set of the processes that are written as ones, process 1 first.
    fn set_of(text: &[u8; 9]) -> ProcessSet {
        text.map(|b| b == b'1')
    }

    #[test]
    fn sets_that_are_enough(rt: HostRuntime) -> Result<(), Fail> {
        let four = Majority::new(4)?;
        let uneven = Weights::new(&[5, 1, 1, 1, 1])?;
        let table = [
            (four.enough(&set_of(b"110000000")), false),
            (four.enough(&set_of(b"111000000")), true),
            (four.enough(&set_of(b"110011111")), false),
            (uneven.enough(&set_of(b"100000000")), true),
            (uneven.enough(&set_of(b"011110000")), false),
            (uneven.enough(&set_of(b"011111111")), false),
            (Grid.enough(&set_of(b"111100100")), true),
            (Grid.enough(&set_of(b"111110000")), false),
            (Grid.enough(&set_of(b"110110110")), false),
        ];
        for (i, (is, wanted)) in table.into_iter().enumerate() {
            assert_eq!(rt; (i, is), (i, wanted));
        }
        assert_eq!(rt; (four.size(), uneven.size(), Grid.size()), (4, 5, 9));
        Ok(())
    }

    #[test]
    fn rules_that_cannot_be_made(rt: HostRuntime) {
        let made = [
            (Majority::new(0).is_ok(), false),
            (Majority::new(1).is_ok(), true),
            (Majority::new(9).is_ok(), true),
            (Majority::new(10).is_ok(), false),
            (Majority::new(u32::MAX).is_ok(), false),
            (Weights::new(&[]).is_ok(), false),
            (Weights::new(&[0, 0]).is_ok(), false),
            (Weights::new(&[0, 99]).is_ok(), true),
            (Weights::new(&[1, 100]).is_ok(), false),
            (Weights::new(&[1, 1 << 31]).is_ok(), false),
            (Weights::new(&[99; 9]).is_ok(), true),
            (Weights::new(&[1; 10]).is_ok(), false),
        ];
        for (i, (is, wanted)) in made.into_iter().enumerate() {
            assert_eq!(rt; (i, is), (i, wanted));
        }
        assert_eq!(rt; CannotBeMade.number(), 15);
    }
}
