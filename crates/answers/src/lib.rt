// A script answered line by line: the bytes that the program prints, and where it has to stop.

#![tactic(auto)]

pub mod answer;
pub mod buffer;
pub mod digits;
pub mod halt;
pub mod step;
