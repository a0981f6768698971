//! What the messages and reports of the disc device speak of: statuses, units, unit maps, addresses.
#![tactic(auto)]

pub mod geometry;
pub mod status;
pub mod unit;
pub mod unit_map;
mod units;
pub mod vector;
