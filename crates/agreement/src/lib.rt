//! The model of a panel's runs, and what holds of every one of them.
#![tactic(auto)]

ghost use Rattle.agreement.specs.Promise.{Agreed};

pub mod call;

// Of every run of a fresh panel, over every rule whose enough sets share a process: one decision, every
// decided or paired reading proposed, and one reading once enough processes have borne a stamp.
pub fn agreement_stands()
    ensures { Agreed }
{}
