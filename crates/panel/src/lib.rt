//! The settling panel: one store, one rule, the records of the processes, and the seven calls.
#![tactic(auto)]

pub mod panel;
