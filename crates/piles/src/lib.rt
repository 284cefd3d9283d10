// Piles of layers that a program puts together at run time.

#![tactic(auto)]

pub mod pile;
pub mod slot;
pub mod stack;
