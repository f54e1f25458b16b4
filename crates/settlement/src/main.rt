//! One headword settled from start to end: five houses, a crash, and messages that are lost and repeated.
#![tactic(auto)]

ghost use Rattle.std.specs.Prelude.{◌≡◌, IfOk};
ghost use Rattle.store.specs.Cells.{absent};
ghost use Rattle.settlement.specs.Settled.{OnlyDecision};

mod settled;
mod words;

use agreement::call::{Call, told};
use panel::panel::Panel;
use printed::printed_store::PrintedStore;
use printed::printing::blank_text;
use process::message::Message;
use quorum::QuorumRule;
use quorum::majority::Majority;
use settled::settle;
use std::io;
use std::io::Write;
use store::Store;
use tray::Tray;
use words::Told;

// The sitting. House 2, the coordinator of round 1, writes its pair and fails before it tells anyone. It
// recovers and tells all; one message is lost, others are delivered twice. House 1 has given house 2 up and
// goes on to round 2 with the reading it proposed itself, houses 3 and 4 with the one of the pair, which has
// the higher stamp; both rounds decide that one. Prints each call with its answer and count, and hands the
// store back with the settled reading: over a store whose cells were absent, the decision of every process
// that has one.
fn hold<S: Store + Drop, R: QuorumRule + Drop>(
    rt: &HostRuntime,
    store: S,
    rule: R,
    slots: &mut [Message],
    without_two: &[Option<u32>],
) -> io::Result<(S, Option<u32>)>
    ensures { S.Store.cells store ≡ absent → IfOk result (λ x. OnlyDecision (S.Store.cells x.0) x.1) }
{
    let mut panel = Panel::new(store, rule);
    let mut tray = Tray::new(slots);
    let calls = [
        Call::Recover(1, None),
        Call::Recover(2, None),
        Call::Recover(3, None),
        Call::Recover(4, None),
        Call::Recover(5, None),
        Call::Propose(1, 407, None),
        Call::Propose(2, 512, None),
        Call::Propose(3, 407, None),
        Call::Propose(4, 512, None),
        Call::Deliver(6, None),
        Call::Deliver(7, Some(1)),
        Call::Recover(2, None),
        Call::Lose(8),
        Call::Deliver(8, None),
        Call::Deliver(8, None),
        Call::Look(1, without_two, None),
        Call::Again(2, None),
        Call::Deliver(9, None),
        Call::Deliver(11, None),
        Call::Deliver(11, None),
        Call::Deliver(12, None),
        Call::Look(3, without_two, None),
        Call::Deliver(12, None),
        Call::Look(4, without_two, None),
        Call::Deliver(22, None),
        Call::Deliver(23, None),
        Call::Deliver(17, None),
        Call::Deliver(27, None),
        Call::Deliver(25, None),
        Call::Deliver(32, None),
        Call::Deliver(28, None),
        Call::Deliver(30, None),
        Call::Deliver(31, None),
        Call::Propose(1, 407, None),
        Call::Crash(2),
    ];
    let mut answers = [Ok(0); 35];
    let settled = settle(&mut panel, &mut tray, &calls[..], &mut answers);
    for (call, answer) in calls.iter().zip(&answers) {
        let call = Told { call: *call };
        let (number, count) = told(*answer);
        println!(rt; "{call}: {number} {count}")?;
    }
    let (store, _) = panel.close();
    Ok((store, settled))
}

fn main(rt: HostRuntime) -> io::Result<()> {
    let Ok(rule) = Majority::new(5) else {
        return Ok(());
    };
    let mut text = blank_text();
    let mut slots = [Message::default(); 64];
    let (_, settled) = hold(
        &rt,
        PrintedStore::open(&mut text),
        rule,
        &mut slots,
        &[Some(0), None, Some(0), Some(0), Some(0)],
    )?;
    rt.stdout().write_all(&text)?;
    if let Some(reading) = settled {
        println!(rt; "settled: {reading}")?;
    }
    Ok(())
}
