//! Nine processes in three rows of three.
ghost use Rattle.std.specs.Prelude.{◌≡◌, length};
ghost use Rattle.quorum.specs.Rules.{grid, whole_row, some_of_row};
ghost use Rattle.quorum.specs.Rows.{grid_shares, grid_grows};
ghost use Rattle.std.proofs.Common.{rules};

use super::{ProcessSet, QuorumRule};

// A set is enough when it holds a whole row and at least one process of every row.
#[derive(Clone, Copy)]
pub struct Grid;

// Whether every process of a row is a member.
fn is_whole(row: &[bool]) -> bool
    requires { length row.now ≡ 3 }
    ensures { result ≡ whole_row row.now 0 }
{
    row.iter().all(|member| *member)
}

// Whether some process of a row is a member.
fn is_met(row: &[bool]) -> bool
    requires { length row.now ≡ 3 }
    ensures { result ≡ some_of_row row.now 0 }
{
    row.iter().any(|member| *member)
}

impl QuorumRule for Grid {
    ghost processes = { λ _. 9 };

    ghost quorum = { λ _. grid };

    ghost sized = { Prim.search rules };

    ghost shares = { λ x. grid_shares };

    ghost grows = { λ x. grid_grows };

    ghost whole = { Prim.search rules };

    fn size(&self) -> u32 {
        9
    }

    fn enough(&self, set: &ProcessSet) -> bool {
        // Named rows: for `any` and `all` over `chunks_exact` the check stops at its limit of instances.
        let (first, second, third) = (&set[..3], &set[3..6], &set[6..]);
        (is_whole(first) || is_whole(second) || is_whole(third))
            && is_met(first)
            && is_met(second)
            && is_met(third)
    }
}
