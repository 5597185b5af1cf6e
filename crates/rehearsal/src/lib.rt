//! A rehearsal's text: what each line says, as a value.
#![tactic(auto)]

pub mod bank;
pub mod fault;
pub mod lines;
pub mod message;
pub mod obstacle;
pub mod sender;
pub mod statement;
pub mod words;
