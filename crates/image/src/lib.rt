#![tactic(auto)]

pub mod check;
pub mod copy;
pub mod refusal;
