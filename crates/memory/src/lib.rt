// Priced memory: what a memory means, the trait that every memory meets, its faults, and the flat store.

#![tactic(auto)]

pub mod fault;
pub mod flat;
pub mod memory;
pub mod price;
