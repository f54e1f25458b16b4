//! Five houses propose readings of one headword, in a printed store.
#![tactic(auto)]

mod houses;
mod leader;

use houses::{ask_rules, best_offer, estimate_of, proposers, word};
use leader::{lead_round, part_at};
use printed::inspect;
use printed::printed_store::PrintedStore;
use printed::printing::blank_text;
use process::memory::Action;
use process::message::Message;
use std::io;
use std::io::Write;
use store::Store;
use store::content::{CellName, Content, Refusal};
use tray::kinds::Estimate;

fn main(rt: HostRuntime) -> io::Result<()> {
    let mut text = blank_text();
    {
        let mut store = PrintedStore::open(&mut text);
        for (house, cell, number, stamp) in [
            (1, CellName::Proposal, 407, 0),
            (2, CellName::Proposal, 512, 0),
            (3, CellName::Proposal, 407, 0),
            (4, CellName::Proposal, 88, 0),
            (5, CellName::Proposal, 512, 0),
            (2, CellName::Pair, 512, 3),
            (4, CellName::Pair, 88, 2),
            (6, CellName::Proposal, 0, 0),
            (10, CellName::Proposal, 407, 0),
        ] {
            let cell = cell.number();
            let answer = store
                .write(house, cell, Content { number, stamp })
                .err()
                .map_or(0, Refusal::number);
            println!(rt; "house {house} writes {number} {stamp} into cell {cell}: {answer}")?;
            if let Ok(said) = ask_rules(&proposers(&store)) {
                let majority = word(said.majority);
                let weights = word(said.weights);
                let grid = word(said.grid);
                println!(rt; "  majority {majority}, weights {weights}, grid {grid}")?;
            }
        }
        for house in 1..6 {
            if let Some(Estimate { reading, stamp, .. }) = estimate_of(&store, house) {
                println!(rt; "house {house} offers {reading} with stamp {stamp}")?;
            }
        }
        if let Some(
            Estimate {
                sender,
                reading,
                ..
            },
        ) = best_offer(&store)
        {
            println!(rt; "the best offer is {reading} of house {sender}")?;
        }
    }
    rt.stdout().write_all(&text)?;
    text[0] = b'0';
    if let Err(fault) = inspect(&text) {
        let answer = fault.number();
        let (line, column) = fault.line_and_column();
        println!(rt; "with a zero in the first column: {answer} {line} {column}")?;
    }
    let Some(turns) = lead_round(407, 512) else {
        return Ok(());
    };
    for (i, turn) in turns.iter().enumerate() {
        let part = part_at(i);
        println!(rt; "process 2 of three {part}:")?;
        for action in turn.plan.actions() {
            match *action {
                Action::Write(cell, Content { number, stamp }) => {
                    let cell = cell.number();
                    println!(rt; "  it writes {number} {stamp} into cell {cell}")?;
                }
                Action::Send(
                    Message {
                        addressee,
                        kind,
                        round,
                        reading,
                        ..
                    },
                ) => {
                    println!(rt; "  it sends {kind} {round} {reading} to process {addressee}")?;
                }
            }
        }
    }
    Ok(())
}
