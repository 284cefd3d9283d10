// The sections of a run over any memory.

#![tactic(auto)]

pub mod engine;
pub mod fault;
pub mod sections;
mod spans;
