//! A stand-in for a silent bank, over any host.
#![tactic(auto)]

pub mod examples;
mod row;
mod stand_in;

pub use row::{ROWS, Row};
pub use stand_in::StandIn;
