//! The tickets of the eight hosts, and a device whose hosts' calls are made with them.
#![tactic(auto)]

pub mod answer;
mod desk;
pub mod session;
