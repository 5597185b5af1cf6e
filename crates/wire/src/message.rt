//! The fields of a message.

/// The name of a purchase, as in SET: 20 bytes of any values.
pub type Xid = [u8; 20];

/// A card by its number, which its digits write in decimal.
pub type Card = u64;

/// The fields of a message, each any number that fits its width. Writing checks them, and takes
/// those that the kind lacks as 0; opening gives only what passes its checks.
#[derive(Clone, Copy, PartialEq, Eq, Debug)]
pub struct Fields {
    /// the number of the kind; writing refuses one that no kind has
    pub kind: u8,
    /// names this request of the course; SET's RRPID, shortened
    pub request: u64,
    /// the racecourse; SET's merchant
    pub course: u32,
    /// the purchase's name
    pub xid: Xid,
    /// the card's number
    pub card: Card,
    /// in pence
    pub amount: u64,
    /// the number of a batch of the course
    pub batch: u32,
}
