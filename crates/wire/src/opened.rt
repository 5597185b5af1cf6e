//! The message as opening gives it.
ghost use Rattle.std.specs.Prelude.{◌≡◌, ℕ, ◌<◌, ◌≤◌, true, false, length, is_some, slice_index};
ghost use Rattle.fields.specs.Kind.{kind_number, is_kind, most_pence};
ghost use Rattle.wire.specs.Checks.{first_failing};
ghost use Rattle.wire.specs.Opening.{message_in, opening_checks};
ghost use Rattle.wire.specs.Writing.{bytes_for, trimmed, writing_checks};

use crate::message::Fields;
use fields::kind::Kind;

pub mod opening;

/// A message that has been opened. Opening alone makes one, so that nothing is performed that was
/// not opened; it can be neither copied nor cloned, so that nothing is performed twice.
#[derive(Drop)]
pub struct Opened {
    fields: Fields,
    // the number of its kind is one of the nine
    ghost known: { is_kind fields.kind ≡ true },
    // the fields that the kind lacks are 0
    ghost trim: { trimmed fields ≡ fields },
    // and writing it again is refused by nothing
    ghost accepted: { is_some (first_failing (writing_checks fields)) ≡ false },
    // opening the bytes that it is written as gives this message: they are those that it was opened
    // from
    ghost opens: { is_some (first_failing (opening_checks (bytes_for fields))) ≡ false },
    ghost spelled: { message_in (bytes_for fields) ≡ fields },
    ghost bytes: { (k : ℕ) → k < length (bytes_for fields)
        → slice_index (bytes_for fields) k < 256 },
}

impl Opened {
    /// What its fields hold, 0 for each that its kind lacks. The amount is in pence.
    pub fn fields(&self) -> Fields
        ensures value { result ≡ self.now.fields }
        ensures small { result.amount ≤ most_pence }
    {
        self.fields
    }

    /// Which of the nine messages it is.
    pub fn kind(&self) -> Kind
        ensures { kind_number result ≡ self.now.fields.kind }
    {
        Kind::try_from(self.fields.kind).unwrap()
    }
}
