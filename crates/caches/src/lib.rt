// Cache layers: what every layer does, once, and the policies that decide which lines a layer keeps.

#![tactic(auto)]

pub mod cache;
pub mod choice;
pub mod direct;
pub mod geometry;
pub mod layer;
pub mod lru;
pub mod policy;
mod table;
