//! All that the checks from 9 on look at beside the message: how many rows there are, the rows that
//! it finds, and whether its purchase is captured in an open batch.
use crate::batch::Batch;
use crate::purchase::Purchase;

/// How many purchases the books have room for, those of all courses together.
pub const PURCHASES: usize = 64;

/// How many answers they remember.
pub const ANSWERS: usize = 256;

/// How many batches they have room for, open and closed.
pub const BATCHES: usize = 8;

/// What a message finds in the books.
#[derive(Clone, Copy)]
pub struct Facts {
    /// How many answers are remembered.
    pub answers: usize,
    /// How many purchases there are.
    pub purchases: usize,
    /// How many batches there are.
    pub batches: usize,
    /// The purchase of the message's XID, if the books have it.
    pub purchase: Option<Purchase>,
    /// The batch of the message's course and number, if the books have it.
    pub batch: Option<Batch>,
    /// Whether something of the purchase is captured, in a batch that is open.
    pub captured_in_open: bool,
}
