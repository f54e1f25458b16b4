//! What a cell holds, what is in its range, and why a store refuses.
ghost use Rattle.std.specs.Prelude.{◌≡◌, ◌+◌, ◌/◌, ◌%◌, if◌then◌else◌, Some, Ok, Err};
ghost use Rattle.store.specs.Ranges.{is_cell, index, fits_number, fits_stamp, fits};
ghost use Rattle.store.specs.CellNames.{cell_number, named, spelled};
ghost use Rattle.store.specs.Refused.{number};
ghost use Rattle.store.specs.declared.content.Refusal.TheVariants.{NoSuchCell};

use std::fmt;

// The four cells of a process, by their numbers.
#[derive(Clone, Copy, PartialEq, Eq, Debug)]
pub enum CellName {
    Proposal = 1,
    Round = 2,
    Pair = 3,
    Decision = 4,
}

impl CellName {
    // Its number.
    pub fn number(self) -> u32
        ensures { result ≡ cell_number self }
    {
        self as u32
    }
}

// The cell of a number.
impl TryFrom<u32> for CellName {
    type Error = Refusal;

    ghost try_from_gives = { λ n r. r ≡ named n };

    fn try_from(n: u32) -> Result<CellName, Refusal> {
        match n {
            1 => Ok(CellName::Proposal),
            2 => Ok(CellName::Round),
            3 => Ok(CellName::Pair),
            4 => Ok(CellName::Decision),
            _ => Err(Refusal::NoSuchCell),
        }
    }
}

impl fmt::Display for CellName {
    ghost output = { λ cell. Some (spelled cell) };

    fn fmt<W: fmt::Write>(&self, f: &mut fmt::Formatter<W>) -> fmt::Result {
        match self {
            CellName::Proposal => write!(f, "proposal"),
            CellName::Round => write!(f, "round"),
            CellName::Pair => write!(f, "pair"),
            CellName::Decision => write!(f, "decision"),
        }
    }
}

// The greatest round, and the greatest reading.
pub const MAX_ROUND: u32 = 999_999;

pub const MAX_READING: u32 = 99_999_999;

// A number, and beside it the stamp where the cell is a pair.
#[derive(Clone, Copy, Default, PartialEq, Eq, Debug)]
pub struct Content {
    pub number: u32,
    pub stamp: u32,
}

// Why a store refuses a read or a write.
#[derive(Clone, Copy, PartialEq, Eq, Debug)]
pub enum Refusal {
    NoSuchCell,
    OutOfRange,
}

impl Refusal {
    // The number that a caller is told.
    pub fn number(self) -> u32
        ensures { result ≡ number self }
    {
        match self {
            Refusal::NoSuchCell => 13,
            Refusal::OutOfRange => 14,
        }
    }
}

// Where a cell lies among all cells, counted from 0: by process, and then by cell.
pub fn index_of(process: u32, cell: u32) -> Result<usize, Refusal>
    ensures { result ≡ (if is_cell process cell then Ok (index process cell) else Err NoSuchCell) }
{
    if !(1..=9).contains(&process) || !(1..=4).contains(&cell) {
        return Err(Refusal::NoSuchCell);
    }
    Ok((process as usize - 1) * 4 + (cell as usize - 1))
}

// The process and the cell at such an index.
pub fn cell_at(index: u32) -> (u32, u32)
    ensures { result ≡ (index / 4 + 1, index % 4 + 1) }
{
    (index / 4 + 1, index % 4 + 1)
}

// Whether a number is in the cell's range.
pub fn is_number_fit(cell: u32, number: u32) -> bool
    ensures { result ≡ fits_number cell number }
{
    let most = if cell == CellName::Round.number() {
        MAX_ROUND
    } else {
        MAX_READING
    };
    (1..=most).contains(&number)
}

// Whether a stamp is in the cell's range.
pub fn is_stamp_fit(cell: u32, stamp: u32) -> bool
    ensures { result ≡ fits_stamp cell stamp }
{
    let most = if cell == CellName::Pair.number() {
        MAX_ROUND
    } else {
        0
    };
    stamp <= most
}

// Whether a content is in the cell's range.
pub fn is_fit(cell: u32, content: Content) -> bool
    ensures { result ≡ fits cell content }
{
    is_number_fit(cell, content.number) && is_stamp_fit(cell, content.stamp)
}
