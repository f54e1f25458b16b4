//! The lines that a sitting begins with.
ghost use Rattle.std.specs.Prelude.{◌≡◌, true, is_some, IfSome, IfOk, Some, vec_len};
ghost use Rattle.script.specs.Setups.{places, rule, store};
ghost use Rattle.script.specs.Words.{words};
ghost use Rattle.std.specs.Fn.{FnReturnsAt};
ghost use Rattle.sitting.specs.Scripts.{text_of};

use super::files::read_file;
use super::reader::Script;
use listing::lines::Note;
use printed::printing::blank_text;
use process::message::Message;
use script::setup::{RuleLine, StoreLine, read_places, read_rule, read_store};
use std::io;
use std::io::Write;

// Says that the line was not understood.
pub fn unread<W: Write>(script: &Script, out: &mut W) -> io::Result<()> {
    let note = Note::Unread(script.number());
    writeln!(out, "{note}")
}

// What `read` makes of the first line of which it makes something; none at the end of the input. Left open: where
// the input ends, and where reading and writing fail.
fn await_line<T, W: Write, F: Fn(&[u8]) -> Option<T>>(
    script: &mut Script,
    out: &mut W,
    read: F,
) -> io::Result<Option<T>>
    requires { F.IsAlwaysCallable read }
    ensures { IfOk result (λ o. IfSome o (λ x. FnReturnsAt F.Fn read (text_of script.new) (Some x))) }
{
    for _ in 0..u64::MAX {
        if !script.advance()? {
            return Ok(None);
        }
        if let Some(x) = read(script.line()) {
            return Ok(Some(x));
        }
        unread(script, out)?;
    }
    Ok(None)
}

// The rule of the first line that is one; none at the end of the input.
pub fn await_rule<W: Write>(script: &mut Script, out: &mut W) -> io::Result<Option<RuleLine>>
    ensures { IfOk result (λ o. IfSome o (λ x. rule (words (text_of script.new)) ≡ Some x)) }
{
    await_line(script, out, read_rule)
}

// A store that is to be opened: a table, or what is written in a text. An Option of the text would be no
// plainer, since none would stand for a table.
#[derive(Drop)]
pub enum Opened {
    Table,
    Text(Vec<u8>),
}

// The store that a line is, its file read; none where it is no such line or the file cannot be read.
fn open_store(rt: &HostRuntime, line: &[u8]) -> Option<Opened>
    ensures { is_some result ≡ true → is_some (store (words line.now)) ≡ true }
{
    match read_store(line)? {
        StoreLine::Table => Some(Opened::Table),
        StoreLine::Fresh => {
            let text = Vec::from_slice(rt.alloc(), &blank_text()).ok()?;
            Some(Opened::Text(text))
        }
        StoreLine::Saved(path) => Some(Opened::Text(read_file(rt, path)?)),
    }
}

// The store of the first line that is one; none at the end of the input.
pub fn await_store<W: Write>(
    rt: &HostRuntime,
    script: &mut Script,
    out: &mut W,
) -> io::Result<Option<Opened>>
    ensures { IfOk result (λ o. is_some o ≡ true → is_some (store (words (text_of script.new))) ≡ true) }
{
    await_line(script, out, |line| open_store(rt, line))
}

// As many places as a line says that is a tray. Left open: whether there is memory for them.
fn open_places(rt: &HostRuntime, line: &[u8]) -> Option<Vec<Message>>
    ensures { IfSome result (λ v. places (words line.now) ≡ Some (vec_len v)) }
{
    let places = read_places(line)?;
    vec![in rt.alloc(); Message::default(); places as usize].ok()
}

// As many places as the first line says that is a tray, and that there is memory for; none at the end of the
// input.
pub fn await_places<W: Write>(
    rt: &HostRuntime,
    script: &mut Script,
    out: &mut W,
) -> io::Result<Option<Vec<Message>>>
    ensures { IfOk result (λ o. IfSome o (λ v. places (words (text_of script.new)) ≡ Some (vec_len v))) }
{
    await_line(script, out, |line| open_places(rt, line))
}
