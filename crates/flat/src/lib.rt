#![tactic(auto)]

pub mod flat;
pub mod lengths;
mod marks;
