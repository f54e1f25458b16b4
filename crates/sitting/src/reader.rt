//! The lines of a script, read one at a time.
ghost use Rattle.std.specs.Prelude.{◌≡◌, ◌+◌, ◌-◌, ◌^◌, min, true, false, IfOk, OnOk, length, nat_lt, vec_items};
ghost use Rattle.script.specs.Words.{passed_over};
ghost use Rattle.sitting.specs.Scripts.{IsOneLine, text_of};

use script::words::{is_passed_over, without_feed};
use std::alloc::Global;
use std::io;
use std::io::{BufRead, BufReader, Stdin};

// The line read last, and its number, counted from 1.
#[derive(Drop)]
pub struct Script {
    input: BufReader<Stdin>,
    bytes: Vec<u8>,
    number: u64,
}

impl Script {
    // Before the first line.
    pub fn new(heap: Global, input: Stdin) -> io::Result<Script>
        ensures { IfOk result (λ script. script.number ≡ 0) }
    {
        Ok(Script {
            input: BufReader::new(heap, input)?,
            bytes: Vec::new(heap),
            number: 0,
        })
    }

    // Reads one line in the place of the one before; false at the end of the input.
    fn read(&mut self) -> io::Result<bool>
        ensures number { OnOk result (self.new.number ≡ min (self.old.number + 1) (2 ^ 64 - 1)) }
        ensures line { IsOneLine self.new }
        ensures more { IfOk result (λ more. more ≡ nat_lt 0 (length (vec_items self.new.bytes))) }
    {
        self.bytes.clear();
        let count = self.input.read_until(b'\n', &mut self.bytes)?;
        self.number = self.number.saturating_add(1);
        Ok(0 < count)
    }

    // Reads on to the next line that is neither empty nor a comment; false at the end of the input. An Option
    // of a borrowed line in place of the flag was tried: after such a borrow nothing is known of the script.
    pub fn advance(&mut self) -> io::Result<bool>
        ensures played { IfOk result (λ more. more ≡ true → passed_over (text_of self.new) ≡ false) }
        ensures line { IfOk result (λ more. more ≡ true → IsOneLine self.new) }
    {
        for _ in 0..u64::MAX {
            if !self.read()? {
                return Ok(false);
            }
            if !is_passed_over(self.line()) {
                return Ok(true);
            }
        }
        Ok(false)
    }

    // The line, without its line feed.
    pub fn line(&self) -> &[u8]
        ensures { result.now ≡ text_of self.now }
    {
        without_feed(self.bytes.as_slice())
    }

    // Its number.
    pub fn number(&self) -> u64
        ensures { result ≡ self.now.number }
    {
        self.number
    }
}
