//! Hosts over other hosts: a line that loses calls, over any host, and a split by card, over any
//! two.
#![tactic(auto)]

pub mod bad_line;
pub mod examples;
pub mod range_split;
