// The commands of a script: their words, and what a line says that is none. Nothing here knows what a command does.

#![tactic(auto)]

pub mod command;
mod meanings;
pub mod messages;
pub mod parse;
