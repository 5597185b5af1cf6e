//! The gateway: the books, and performing and handling a message.
#![tactic(auto)]

mod books;
mod handled;
mod performing;

pub use handled::Handled;
pub use performing::Gateway;
// The rows and the outcomes that a caller sees, under its own name too.
pub use rules::{batch, outcome, purchase, remembered};
