//! The fields of a message and the table of their widths, the kinds of message, the refusals, and
//! the record file.
#![tactic(auto)]

pub mod field;
pub mod kind;
pub mod record;
pub mod refusal;
