#![tactic(auto)]

pub mod lengths;
pub mod raw;
mod tracks;
