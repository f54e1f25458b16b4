//! The lines that a sitting begins with.
ghost use Rattle.std.specs.Prelude.{◌≡◌};
ghost use Rattle.script.specs.Setups.{after_name, kind_of_rule, kind_of_store, places, printed, rule, store, weights, with_saved};
ghost use Rattle.script.specs.Words.{words};
ghost use Rattle.std.specs.Option.{option_map};

use super::calls::{is_end, read_lone};
use super::row::{Row, read_row};
use super::words::next_word;

// A quorum rule, by its size or its weights.
#[derive(Clone, Copy, PartialEq, Eq, Debug)]
pub enum RuleLine {
    Majority(u32),
    Weights(Row<u32>),
    Grid,
}

// A store: a table in memory, a printed one with nothing in it, or one over a file; a path is of type P.
#[derive(Clone, Copy, PartialEq, Eq, Debug)]
pub enum StoreLine<P> {
    Table,
    Fresh,
    Saved(P),
}

// What follows a name that a line begins with.
fn read_after<'a>(name: &str, line: &'a [u8]) -> Option<&'a [u8]>
    ensures { option_map (λ x. words x.now) result ≡ after_name name.now (words line.now) }
{
    let (word, rest) = next_word(line)?;
    (word == name.as_bytes()).then_some(rest)
}

// A rule by weights.
fn read_weights(line: &[u8]) -> Option<RuleLine>
    ensures { result ≡ weights (words line.now) }
{
    let (row, rest) = read_row(line);
    is_end(rest).then_some(RuleLine::Weights(row))
}

// A rule, by its kind.
fn read_kind_of_rule(line: &[u8]) -> Option<RuleLine>
    ensures { result ≡ kind_of_rule (words line.now) }
{
    let (word, rest) = next_word(line)?;
    match word {
        b"majority" => read_lone(rest).map(RuleLine::Majority),
        b"weights" => read_weights(rest),
        b"grid" => is_end(rest).then_some(RuleLine::Grid),
        _ => None,
    }
}

// The rule that a line is.
pub fn read_rule(line: &[u8]) -> Option<RuleLine>
    ensures { result ≡ rule (words line.now) }
{
    read_kind_of_rule(read_after("rule", line)?)
}

// A printed store.
fn read_printed(line: &[u8]) -> Option<StoreLine<&[u8]>>
    ensures { option_map (with_saved (λ x. x.now)) result ≡ printed (words line.now) }
{
    let Some((path, rest)) = next_word(line) else {
        return Some(StoreLine::Fresh);
    };
    is_end(rest).then_some(StoreLine::Saved(path))
}

// A store, by its kind.
fn read_kind_of_store(line: &[u8]) -> Option<StoreLine<&[u8]>>
    ensures { option_map (with_saved (λ x. x.now)) result ≡ kind_of_store (words line.now) }
{
    let (word, rest) = next_word(line)?;
    match word {
        b"table" => is_end(rest).then_some(StoreLine::Table),
        b"printed" => read_printed(rest),
        _ => None,
    }
}

// The store that a line is.
pub fn read_store(line: &[u8]) -> Option<StoreLine<&[u8]>>
    ensures { option_map (with_saved (λ x. x.now)) result ≡ store (words line.now) }
{
    read_kind_of_store(read_after("store", line)?)
}

// The number of places of a tray that a line is.
pub fn read_places(line: &[u8]) -> Option<u32>
    ensures { result ≡ places (words line.now) }
{
    read_lone(read_after("tray", line)?)
}
