//! What the houses have in the store.
ghost use Rattle.std.specs.Prelude.{◌≡◌, if◌then◌else◌, Ok, codes};
ghost use Rattle.settle.specs.Houses.{estimate, offers, proposes, proposing};
ghost use Rattle.settle.specs.Judged.{judged};
ghost use Rattle.tray.specs.Best.{Chosen};
ghost use Rattle.tray.specs.Kinds.{prefers_estimate};

use quorum::grid::Grid;
use quorum::majority::Majority;
use quorum::weights::Weights;
use quorum::{CannotBeMade, ProcessSet, QuorumRule};
use std::array::from_fn;
use store::content::CellName;
use store::{Store, held};
use tray::Tray;
use tray::choice::best_of_tray;
use tray::kinds::Estimate;

// What three rules say of one set.
#[derive(Clone, Copy)]
pub struct Verdicts {
    pub majority: bool,
    pub weights: bool,
    pub grid: bool,
}

// What a house offers: its pair, or else its proposal, which has the stamp 0.
pub fn estimate_of<S: Store>(store: &S, house: u32) -> Option<Estimate>
    ensures { result ≡ estimate (S.Store.cells store.now) house }
{
    let pair = held(store, house, CellName::Pair.number());
    let offer = pair.or_else(|| held(store, house, CellName::Proposal.number()))?;
    Some(Estimate {
        sender: house,
        reading: offer.number,
        stamp: offer.stamp,
    })
}

// The best of what houses 1 to 9 offer.
pub fn best_offer<S: Store>(store: &S) -> Option<Estimate>
    ensures { Chosen prefers_estimate (offers (S.Store.cells store.now) 9) result }
{
    let mut slots = [Estimate::default(); 9];
    let mut tray = Tray::new(&mut slots);
    for house in 1..=9 {
        if let Some(offer) = estimate_of(store, house) {
            let _ = tray.put(offer);
        }
    }
    best_of_tray(&tray)
}

// Whether a house has a proposal.
pub fn has_proposal<S: Store>(store: &S, house: u32) -> bool
    ensures { result ≡ proposes (S.Store.cells store.now) house }
{
    held(store, house, CellName::Proposal.number()).is_some()
}

// The houses that have a proposal.
pub fn proposers<S: Store>(store: &S) -> ProcessSet
    ensures { result ≡ proposing (S.Store.cells store.now) 9 }
{
    from_fn(|i| has_proposal(store, i as u32 + 1))
}

// Whether a set is enough by the majority of five, by the weights 3, 1, 1, 1 and 1, and by the grid.
pub fn ask_rules(set: &ProcessSet) -> Result<Verdicts, CannotBeMade>
    ensures { result ≡ Ok (judged set.now) }
{
    let majority = Majority::new(5)?;
    let weights = Weights::new(&[3, 1, 1, 1, 1])?;
    Ok(Verdicts {
        majority: majority.enough(set),
        weights: weights.enough(set),
        grid: Grid.enough(set),
    })
}

// How a rule's answer is said; a type that prints itself would be no plainer for two words.
pub fn word(enough: bool) -> &'static str
    ensures { result.now ≡ (if enough then codes "enough" else codes "not yet") }
{
    if enough { "enough" } else { "not yet" }
}
