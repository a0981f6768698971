#![tactic(auto)]

mod blocks;
pub mod report;
pub mod segment;
