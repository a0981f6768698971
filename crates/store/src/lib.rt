#![tactic(auto)]

pub mod calls;
pub mod count;
pub mod fault;
pub mod store;
