// What a run asks of a memory, recorded: trace words, the bounded list that takes them, the pen, and one recorded request.

#![tactic(auto)]

pub mod list;
pub mod pen;
pub mod record;
pub mod section;
