//! The commands of a script, on a panel.
ghost use Rattle.std.specs.Prelude.{◌≡◌, true, is_some, IfOk};
ghost use Rattle.agreement.specs.Calls.{done};
ghost use Rattle.panel.specs.Panels.{outcome_in, state_in};
ghost use Rattle.script.specs.Commands.{command};
ghost use Rattle.script.specs.Words.{words};
ghost use Rattle.sitting.specs.Calls.{judged};

use super::files::{read_file, write_file};
use super::reader::Script;
use super::setup::unread;
use super::views::{show_cells, show_tray};
use agreement::call::{Refusal, told};
use listing::lines::{Answer, Note};
use listing::record::ProcessLine;
use listing::stored::store_text;
use panel::panel::Panel;
use printed::inspect;
use process::message::Message;
use quorum::QuorumRule;
use script::calls::Call;
use script::commands::{Command, read_command};
use std::io;
use std::io::Write;
use store::Store;
use tray::Tray;

// Makes one call.
fn make<S: Store, R: QuorumRule>(
    panel: &mut Panel<S, R>,
    tray: &mut Tray<Message>,
    call: &Call,
) -> Result<u32, Refusal>
    ensures { outcome_in R.QuorumRule S.Store result panel.new tray.new ≡ done (judged call.now) (state_in R.QuorumRule S.Store panel.old tray.old) }
{
    panel.call(tray, &call.widened().lent())
}

// Does what a line asks for; false where it is not understood.
fn perform<S: Store, R: QuorumRule, W: Write>(
    rt: &HostRuntime,
    panel: &mut Panel<S, R>,
    tray: &mut Tray<Message>,
    line: &[u8],
    out: &mut W,
) -> io::Result<bool>
    ensures { IfOk result (λ understood. understood ≡ true → is_some (command (words line.now)) ≡ true) }
{
    let Some(command) = read_command(line) else {
        return Ok(false);
    };
    match command {
        Command::Make(call) => {
            let (number, actions) = told(make(panel, tray, &call));
            let answer = Answer { number, actions };
            writeln!(out, "{answer}")?;
        }
        Command::Cells => show_cells(panel.store(), out)?,
        Command::Tray => show_tray(tray, out)?,
        Command::Process(p) => {
            let Some(status) = panel.status(p) else {
                return Ok(false);
            };
            let line = ProcessLine { process: p, status };
            writeln!(out, "{line}")?;
        }
        Command::Store => out.write_all(&store_text(panel.store()))?,
        Command::Save(path) => {
            if write_file(rt, path, &store_text(panel.store())).is_none() {
                return Ok(false);
            }
            writeln!(out, "0")?;
        }
        Command::Check(path) => {
            let Some(file) = read_file(rt, path) else {
                return Ok(false);
            };
            match inspect(file.as_slice()) {
                Ok(()) => writeln!(out, "0")?,
                Err(fault) => {
                    let note = Note::Fault(fault);
                    writeln!(out, "{note}")?;
                }
            }
        }
    }
    Ok(true)
}

// Plays what is left of a script.
pub fn play_all<S: Store, R: QuorumRule, W: Write>(
    rt: &HostRuntime,
    script: &mut Script,
    panel: &mut Panel<S, R>,
    tray: &mut Tray<Message>,
    out: &mut W,
) -> io::Result<()> {
    for _ in 0..u64::MAX {
        if !script.advance()? {
            break;
        }
        if !perform(rt, panel, tray, script.line(), out)? {
            unread(script, out)?;
        }
    }
    Ok(())
}
