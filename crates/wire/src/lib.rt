//! The message on the wire: bytes to a message and back, and the answers.
#![tactic(auto)]

pub mod answer;
mod card;
mod lay;
pub mod message;
pub mod opened;
mod parts;
mod reader;
mod strip;
pub mod writing;

pub use opened::opening::open;
pub use strip::STRIP;
pub use writing::write;
