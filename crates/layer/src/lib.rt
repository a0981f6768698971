#![tactic(auto)]

pub mod guard;
pub mod run;
pub mod window;
