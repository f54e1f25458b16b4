//! Reading a part of a line.
ghost use Rattle.std.specs.Prelude.{◌≡◌, ◌≢◌, ℕ, ◌+◌, ◌/◌, ◌<◌, ◌≤◌, length, Some, None, MatchOption, MatchResult};
ghost use Rattle.printed.specs.Fields.{figure, Field, FieldShape, NumberShape, BlankShape};
ghost use Rattle.printed.specs.Lines.{Rest, RestShape};

use super::fault::FieldFault;
use store::content::Content;

// Some columns of a line, the line's number, and how many columns come before them.
#[derive(Clone, Copy)]
pub(crate) struct Part<'a> {
    bytes: &'a [u8],
    line: usize,
    start: usize,
    ghost width: { (0 < length bytes.now) × (length bytes.now ≤ 9) },
    ghost near: { start ≤ 9 },
}

// The number with the figures of `n` and then the one that `b` shows, in a column that is not the last.
fn append(n: u32, b: u8) -> Option<u32>
    requires { n < 100000000 }
    ensures { MatchOption result ((m : ℕ) → m / 10 ≡ n → figure m ≢ b) (λ m. (m / 10 ≡ n) × (figure m ≡ b)) }
{
    match b {
        b' ' if n == 0 => Some(0),
        b'1'..=b'9' => Some(n * 10 + (b - b'0') as u32),
        b'0' if n > 0 => Some(n * 10),
        _ => None,
    }
}

impl<'a> Part<'a> {
    ghost use Rattle.printed.specs.Faults.{FieldWrong};

    pub(crate) fn new(bytes: &'a [u8], line: usize, start: usize) -> Part<'a>
        requires width { (0 < length bytes.now) × (length bytes.now ≤ 9) }
        requires near { start ≤ 9 }
        ensures bytes { result.bytes.now ≡ bytes.now }
        ensures line { result.line ≡ line }
        ensures start { result.start ≡ start }
    {
        Part { bytes, line, start }
    }

    // The fault of the column at an index.
    fn fault(self, i: usize) -> FieldFault
        requires { i < length self.bytes.now }
        ensures line { result.line ≡ self.entry.line }
        ensures column { result.column ≡ self.entry.start + (i + 1) }
    {
        FieldFault {
            line: self.line,
            column: self.start + (i + 1),
        }
    }

    // The number that they show, or that they are blank.
    pub(crate) fn value(self) -> Result<Option<u32>, FieldFault>
        ensures { let xs = self.entry.bytes.now in MatchResult result (Field xs) (FieldWrong (FieldShape (length xs)) self.entry) }
    {
        let (&last, front) = self.bytes.split_last().unwrap();
        let mut n = 0;
        for (i, &b) in front.iter().enumerate() {
            n = append(n, b).ok_or(self.fault(i))?;
        }
        match last {
            b' ' if n == 0 => Ok(None),
            b'0'..=b'9' => Ok(Some(n * 10 + (last - b'0') as u32)),
            _ => Err(self.fault(front.len())),
        }
    }

    // The number that they show, where they may not be blank.
    fn number(self) -> Result<u32, FieldFault>
        ensures { let xs = self.entry.bytes.now in MatchResult result (λ n. Field xs (Some n)) (FieldWrong (NumberShape (length xs)) self.entry) }
    {
        self.value()?.ok_or(self.fault(self.bytes.len() - 1))
    }

    // That they are blank.
    fn blank(self) -> Result<(), FieldFault>
        ensures { let xs = self.entry.bytes.now in MatchResult result (λ _. Field xs None) (FieldWrong (BlankShape (length xs)) self.entry) }
    {
        match self.bytes.iter().position(|b| *b != b' ') {
            Some(i) => Err(self.fault(i)),
            None => Ok(()),
        }
    }

    // What a line shows, by its first field, where these follow the blank.
    pub(crate) fn rest(self, first: Option<u32>) -> Result<Option<Content>, FieldFault>
        requires { length self.bytes.now ≡ 6 }
        ensures { MatchResult result (Rest first self.entry.bytes.now) (FieldWrong (RestShape first) self.entry) }
    {
        match first {
            Some(number) => {
                let stamp = self.number()?;
                Ok(Some(Content { number, stamp }))
            }
            None => {
                self.blank()?;
                Ok(None)
            }
        }
    }
}
