//! The host table: what the device keeps of each host, what stands in another host's way, and what a host waits for.
#![tactic(auto)]

pub mod fault;
pub mod locks;
pub mod mail;
pub mod progress;
pub mod record;
pub mod transaction;
pub mod want;
