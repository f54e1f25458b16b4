//! What is wrong with the text of a store, from field to line to store.
ghost use Rattle.std.specs.Prelude.{◌≡◌};
ghost use Rattle.printed.specs.Faults.{number, line_and_column};
ghost use Rattle.printed.specs.declared.fault.LineFault.TheVariants.{Field};
ghost use Rattle.printed.specs.declared.fault.StoreFault.TheVariants.{Line};

// A field of wrong shape: its line, and the first column of that line after which no field of right
// shape can follow; both are counted from 1.
#[derive(Clone, Copy, PartialEq, Eq, Debug)]
pub struct FieldFault {
    pub line: usize,
    pub column: usize,
}

// What is wrong with a line, by its number: a field, the blank between the fields, the line feed,
// or, in a line of right shape, the number or the stamp that is out of range.
#[derive(Clone, Copy, PartialEq, Eq, Debug)]
pub enum LineFault {
    Field(FieldFault),
    Blank(usize),
    LineFeed(usize),
    Number(usize),
    Stamp(usize),
}

// What is wrong with a text: its length, or its first wrong line.
#[derive(Clone, Copy, PartialEq, Eq, Debug)]
pub enum StoreFault {
    Length,
    Line(LineFault),
}

impl From<FieldFault> for LineFault {
    ghost from_gives = { λ f r. r ≡ Field f };

    fn from(f: FieldFault) -> LineFault {
        LineFault::Field(f)
    }
}

impl From<LineFault> for StoreFault {
    ghost from_gives = { λ f r. r ≡ Line f };

    fn from(f: LineFault) -> StoreFault {
        StoreFault::Line(f)
    }
}

impl StoreFault {
    // The number that a caller is told.
    pub fn number(self) -> u32
        ensures { result ≡ number self }
    {
        16
    }

    // The line and the column that a caller is told, both 0 for a wrong length.
    pub fn line_and_column(self) -> (usize, usize)
        ensures { result ≡ line_and_column self }
    {
        match self {
            StoreFault::Length => (0, 0),
            StoreFault::Line(LineFault::Field(f)) => (f.line, f.column),
            StoreFault::Line(LineFault::Blank(line)) => (line, 9),
            StoreFault::Line(LineFault::LineFeed(line)) => (line, 16),
            StoreFault::Line(LineFault::Number(line)) => (line, 1),
            StoreFault::Line(LineFault::Stamp(line)) => (line, 10),
        }
    }
}
