// Where a run keeps its words, and why a bench says no.

#![tactic(auto)]

pub mod fault;
pub mod placement;
pub mod regions;
