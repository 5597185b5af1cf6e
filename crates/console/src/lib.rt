//! What the programs share: their arguments, records as they come from a reader, and how a card and
//! an amount are shown.
#![tactic(auto)]

pub mod arguments;
pub mod shown;
pub mod stream;
