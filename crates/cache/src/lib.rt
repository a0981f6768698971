#![tactic(auto)]

pub mod cache;
mod slot;
