// Text taken apart: lines, words and numbers. Nothing here knows a command.

#![tactic(auto)]

mod bytes;
pub mod numbers;
pub mod scanner;
