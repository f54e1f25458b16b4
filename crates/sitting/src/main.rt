//! Plays a script of calls on a settling panel.
#![tactic(auto)]

mod files;
mod play;
mod reader;
mod setup;
mod views;

use listing::lines::{Answer, Note};
use panel::panel::Panel;
use play::play_all;
use printed::printed_store::PrintedStore;
use quorum::grid::Grid;
use quorum::majority::Majority;
use quorum::weights::Weights;
use quorum::{CannotBeMade, QuorumRule};
use reader::Script;
use script::setup::RuleLine;
use setup::{Opened, await_places, await_rule, await_store};
use std::io;
use std::io::{BufWriter, Write};
use store::Store;
use store::table::Table;
use tray::Tray;

// The script and the output stand apart in what follows, and not in one struct: a line of the one is borrowed while
// the other is written.

// A sitting over a store, from the line of its tray on.
fn sit_over<S: Store + Drop, R: QuorumRule + Drop, W: Write>(
    rt: &HostRuntime,
    script: &mut Script,
    store: S,
    rule: R,
    out: &mut W,
) -> io::Result<()> {
    let Some(mut slots) = await_places(rt, script, out)? else {
        return Ok(());
    };
    let mut tray = Tray::new(slots.as_mut_slice());
    let mut panel = Panel::new(store, rule);
    play_all(rt, script, &mut panel, &mut tray, out)
}

// A sitting over the text of a store.
fn sit_over_text<R: QuorumRule + Drop, W: Write>(
    rt: &HostRuntime,
    script: &mut Script,
    text: &mut [u8],
    rule: R,
    out: &mut W,
) -> io::Result<()> {
    match PrintedStore::try_open(text) {
        Ok(store) => sit_over(rt, script, store, rule, out),
        Err(refused) => {
            let note = Note::Fault(refused.fault);
            writeln!(out, "{note}")
        }
    }
}

// A sitting under a rule, from the line of its store on.
fn sit_under<R: QuorumRule + Drop, W: Write>(
    rt: &HostRuntime,
    script: &mut Script,
    rule: R,
    out: &mut W,
) -> io::Result<()> {
    match await_store(rt, script, out)? {
        None => Ok(()),
        Some(Opened::Table) => sit_over(rt, script, Table::new(), rule, out),
        Some(Opened::Text(mut text)) => {
            sit_over_text(rt, script, text.as_mut_slice(), rule, out)
        }
    }
}

// A sitting under a rule that was made; else says that it cannot be.
fn sit_if_made<R: QuorumRule + Drop, W: Write>(
    rt: &HostRuntime,
    script: &mut Script,
    made: Result<R, CannotBeMade>,
    out: &mut W,
) -> io::Result<()> {
    match made {
        Ok(rule) => sit_under(rt, script, rule, out),
        Err(refusal) => {
            let answer = Answer {
                number: refusal.number(),
                actions: 0,
            };
            writeln!(out, "{answer}")
        }
    }
}

// A sitting, from its first line on.
fn sit<W: Write>(rt: &HostRuntime, out: &mut W) -> io::Result<()> {
    let mut script = Script::new(rt.alloc(), rt.stdin())?;
    match await_rule(&mut script, out)? {
        None => Ok(()),
        Some(RuleLine::Majority(n)) => sit_if_made(rt, &mut script, Majority::new(n), out),
        Some(RuleLine::Weights(row)) => {
            sit_if_made(rt, &mut script, Weights::new(row.as_slice()), out)
        }
        Some(RuleLine::Grid) => sit_under(rt, &mut script, Grid, out),
    }
}

fn main(rt: HostRuntime) {
    let Ok(mut out) = BufWriter::new(rt.alloc(), rt.stdout()) else {
        return;
    };
    let _ = sit(&rt, &mut out);
    let _ = out.flush();
}
