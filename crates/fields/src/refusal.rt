//! Why a message is not opened or not written.
ghost use Rattle.std.specs.Prelude.{◌≡◌, Some};
ghost use Rattle.fields.specs.Refusal.{refusal_number, refusal_reason};

use std::error::Error;
use std::fmt;

/// Why a message is not opened or not written, each reason with the number that an answer has for
/// it. What a refusal leaves is said at the call that gives it.
#[derive(Clone, Copy, PartialEq, Eq, Debug)]
pub enum Refusal {
    /// A lent buffer or the digit strip is too short.
    ShortBuffer = 1,
    /// Under three bytes, field 1 missing, or a reserved bit set.
    NotAMessage = 2,
    /// The kind is not 1 to 9.
    UnknownKind = 3,
    /// The map is not the kind's.
    WrongMap = 4,
    /// The length is not the kind's.
    WrongLength = 5,
    /// The card is not packed as it should be, or fails the Luhn check.
    BadCard = 6,
    /// The amount is less or more than the kind allows.
    AmountNotAllowed = 7,
}

impl From<Refusal> for u8 {
    ghost from_gives = { λ refusal n. n ≡ refusal_number refusal };

    fn from(refusal: Refusal) -> u8 {
        refusal as u8
    }
}

impl Refusal {
    /// The reason in words.
    pub fn reason(self) -> &'static str
        ensures { result.now ≡ refusal_reason self }
    {
        match self {
            Refusal::ShortBuffer => "a buffer is too short",
            Refusal::NotAMessage => "under 3 bytes, field 1 missing, or a reserved bit set",
            Refusal::UnknownKind => "the kind is not 1 to 9",
            Refusal::WrongMap => "the map is not the kind's",
            Refusal::WrongLength => "the length is not the kind's",
            Refusal::BadCard => "the card is not packed rightly or fails the Luhn check",
            Refusal::AmountNotAllowed => "the amount is not allowed",
        }
    }
}

impl fmt::Display for Refusal {
    ghost output = { λ refusal. Some (refusal_reason refusal) };

    fn fmt<W: fmt::Write>(&self, f: &mut fmt::Formatter<W>) -> fmt::Result {
        f.write_str(self.reason())
    }
}

impl Error for Refusal {}
