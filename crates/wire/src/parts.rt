//! What stands in the bytes of a message or of an answer, field by field.

/// All fields that have a width, the card packed. A field that the map lacks is 0.
#[derive(Clone, Copy)]
pub struct Parts {
    /// as the code, any byte
    pub kind: u8,
    pub request: u64,
    pub course: u32,
    pub xid: [u8; 20],
    pub card: [u8; 10],
    pub amount: u64,
    pub batch: u32,
    pub code: u8,
}
