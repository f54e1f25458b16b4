//! Rows that were worked out by hand.
ghost use Rattle.std.specs.Prelude.{◌≡◌, true, length};
ghost use Rattle.process.specs.Ranges.{every};
ghost use Rattle.process.specs.Rows.{rows};

// How many rows there are; all of them hold.
pub fn count_rows() -> usize
    ensures hold { every (λ b. b) rows ≡ true }
    ensures value { result ≡ length rows }
{
    14
}
