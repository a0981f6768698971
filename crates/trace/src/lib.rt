//! Traces: many device calls, and what each answers, as bytes.
#![tactic(auto)]

pub mod answer;
pub mod call;
pub mod ending;
pub mod filling;
pub mod head;
pub mod images;
mod number;
pub mod play;
pub mod player;
