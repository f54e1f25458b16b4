//! The calls that lines ask for.
ghost use Rattle.std.specs.Prelude.{◌≡◌};
ghost use Rattle.script.specs.Calls.{cut, cut_number, ended, lone_number, named_call, number_first, proposal, view};
ghost use Rattle.script.specs.Words.{words};
ghost use Rattle.std.specs.Option.{option_map};

use super::row::{Row, read_row};
use super::words::{is_word, next_word, read_number};
use agreement::call;

// A call of a script, with a row for its list.
pub type Call = call::Call<Row<Option<u32>>, u32>;

// The number that a line begins with, and what follows it.
fn first_number(line: &[u8]) -> Option<(u32, &[u8])>
    ensures { option_map (λ p. (p.0, words p.1.now)) result ≡ number_first (words line.now) }
{
    let (word, rest) = next_word(line)?;
    Some((read_number(word)?, rest))
}

// Whether a line has no words.
pub(crate) fn is_end(line: &[u8]) -> bool
    ensures { result ≡ ended (words line.now) }
{
    next_word(line).is_none()
}

// The one number that a line is.
pub(crate) fn read_lone(line: &[u8]) -> Option<u32>
    ensures { result ≡ lone_number (words line.now) }
{
    let (n, rest) = first_number(line)?;
    is_end(rest).then_some(n)
}

// The cut that a line is, or none where there is nothing more.
fn read_cut(line: &[u8]) -> Option<Option<u32>>
    ensures { result ≡ cut (words line.now) }
{
    let Some((word, rest)) = next_word(line) else {
        return Some(None);
    };
    match word {
        b"cut" => read_lone(rest).map(Some),
        _ => None,
    }
}

// The number that a line begins with, and the cut after it.
fn read_cut_number(line: &[u8]) -> Option<(u32, Option<u32>)>
    ensures { result ≡ cut_number (words line.now) }
{
    let (n, rest) = first_number(line)?;
    Some((n, read_cut(rest)?))
}

// A proposal.
fn read_proposal(line: &[u8]) -> Option<Call>
    ensures { result ≡ proposal (words line.now) }
{
    let (p, rest) = first_number(line)?;
    let (reading, cut) = read_cut_number(rest)?;
    Some(Call::Propose(p, reading, cut))
}

// A look at a list.
fn read_look(line: &[u8]) -> Option<Call>
    ensures { result ≡ view (words line.now) }
{
    let (p, rest) = first_number(line)?;
    let (list, end) = read_row(rest);
    Some(Call::Look(p, list, read_cut(end)?))
}

// The call that a name and what follows it are. By `is_word`, since a proof sees a pattern of bytes byte by byte.
pub(crate) fn read_call(name: &[u8], line: &[u8]) -> Option<Call>
    ensures { result ≡ named_call name.now (words line.now) }
{
    match name {
        _ if is_word(name, "recover") => {
            let (p, cut) = read_cut_number(line)?;
            Some(Call::Recover(p, cut))
        }
        _ if is_word(name, "propose") => read_proposal(line),
        _ if is_word(name, "look") => read_look(line),
        _ if is_word(name, "deliver") => {
            let (place, cut) = read_cut_number(line)?;
            Some(Call::Deliver(place, cut))
        }
        _ if is_word(name, "again") => {
            let (p, cut) = read_cut_number(line)?;
            Some(Call::Again(p, cut))
        }
        _ if is_word(name, "lose") => Some(Call::Lose(read_lone(line)?)),
        _ if is_word(name, "crash") => Some(Call::Crash(read_lone(line)?)),
        _ => None,
    }
}
