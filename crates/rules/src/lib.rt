//! The rules of performing: the rows of the books, the checks, what each message moves and answers.
#![tactic(auto)]

pub mod batch;
pub mod checks;
pub mod facts;
pub mod found;
pub mod outcome;
pub mod plan;
pub mod purchase;
pub mod remembered;
pub mod same;
