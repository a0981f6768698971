//! Command messages: what a host may ask for, and the decoder.
#![tactic(auto)]

pub mod command;
pub mod decode;
mod draft;
pub mod message;
mod operand;
pub mod parameters;
