#![tactic(auto)]

pub mod compare;
pub mod master;
