//! The message that answers an Extended Describe: what the controller and its units are.
#![tactic(auto)]

pub mod description;
mod tables;
