//! The reading that a sitting settles.
ghost use Rattle.std.specs.Prelude.{◌≡◌, min, length, take};
ghost use Rattle.agreement.specs.Promise.{Fresh};
ghost use Rattle.panel.specs.Panels.{state_in};
ghost use Rattle.panel.specs.Sittings.{Sat};
ghost use Rattle.std.specs.Option.{option_map};
ghost use Rattle.store.specs.Cells.{held};
ghost use Rattle.settlement.specs.Settled.{FirstDecision, OnlyDecision};

use agreement::call::{PanelCall, Refusal};
use panel::panel::Panel;
use process::message::Message;
use quorum::QuorumRule;
use store::content::CellName;
use store::{Store, held};
use tray::Tray;

// A process's decision; none where it has none, or there is no such process.
fn decision_of<S: Store>(store: &S, p: u32) -> Option<u32>
    ensures { result ≡ option_map (λ x. x.number) (held (S.Store.cells store.now) p 4) }
{
    held(store, p, CellName::Decision.number()).map(|content| content.number)
}

// The decision of the first process that has one.
pub fn first_decision<S: Store>(store: &S) -> Option<u32>
    ensures { FirstDecision (S.Store.cells store.now) result }
{
    // A `find_map` over the numbers is proved only by a lemma on its calls that is longer than this loop.
    for p in 1..10 {
        if let Some(reading) = decision_of(store, p) {
            return Some(reading);
        }
    }
    None
}

// Makes as many of the calls as there are places for their answers, and gives the settled reading. From a
// fresh panel and an empty tray every process that has decided has decided that one.
pub fn settle<S: Store, R: QuorumRule>(
    panel: &mut Panel<S, R>,
    tray: &mut Tray<Message>,
    calls: &[PanelCall],
    answers: &mut [Result<u32, Refusal>],
) -> Option<u32>
    ensures sat { Sat (take (min (length calls.now) (length answers.old)) calls.now) (state_in R.QuorumRule S.Store panel.old tray.old) (state_in R.QuorumRule S.Store panel.new tray.new) answers.old answers.new }
    ensures first { FirstDecision (state_in R.QuorumRule S.Store panel.new tray.new).cells result }
    ensures only { Fresh (state_in R.QuorumRule S.Store panel.old tray.old) → OnlyDecision (state_in R.QuorumRule S.Store panel.new tray.new).cells result }
{
    let _ = panel.sit(tray, calls, answers);
    first_decision(panel.store())
}
