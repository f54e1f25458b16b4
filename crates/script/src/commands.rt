//! The commands that lines are.
ghost use Rattle.std.specs.Prelude.{◌≡◌};
ghost use Rattle.script.specs.Commands.{command, lone_word, named_view, with_path};
ghost use Rattle.script.specs.Words.{words};
ghost use Rattle.std.specs.Option.{option_map};

use super::calls::{Call, is_end, read_call, read_lone};
use super::words::{is_word, next_word};

// A call to make, or something to show, to save or to check; a path is of type P.
#[derive(Clone, Copy, PartialEq, Eq, Debug)]
pub enum Command<P> {
    Make(Call),
    Cells,
    Tray,
    Process(u32),
    Store,
    Save(P),
    Check(P),
}

// The one word that a line is.
fn read_word(line: &[u8]) -> Option<&[u8]>
    ensures { option_map (λ x. x.now) result ≡ lone_word (words line.now) }
{
    let (word, rest) = next_word(line)?;
    is_end(rest).then_some(word)
}

// What is to be shown, saved or checked, by a name and what follows it.
fn read_view<'a>(name: &[u8], line: &'a [u8]) -> Option<Command<&'a [u8]>>
    ensures { option_map (with_path (λ x. x.now)) result ≡ named_view name.now (words line.now) }
{
    match name {
        _ if is_word(name, "cells") => is_end(line).then_some(Command::Cells),
        _ if is_word(name, "tray") => is_end(line).then_some(Command::Tray),
        _ if is_word(name, "process") => Some(Command::Process(read_lone(line)?)),
        _ if is_word(name, "store") => is_end(line).then_some(Command::Store),
        _ if is_word(name, "save") => Some(Command::Save(read_word(line)?)),
        _ if is_word(name, "check") => Some(Command::Check(read_word(line)?)),
        _ => None,
    }
}

// The command that a line is.
pub fn read_command(line: &[u8]) -> Option<Command<&[u8]>>
    ensures { option_map (with_path (λ x. x.now)) result ≡ command (words line.now) }
{
    let (name, rest) = next_word(line)?;
    read_call(name, rest)
        .map(|call| Command::Make(call))
        .or_else(|| read_view(name, rest))
}
