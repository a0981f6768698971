#![tactic(auto)]

mod caller;
pub mod controller;
pub mod device;
mod table;
pub mod ticket;
