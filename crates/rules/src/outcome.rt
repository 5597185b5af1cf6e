//! What performing a message came to, success and each refusal by its code.
ghost use Rattle.std.specs.Prelude.{◌≡◌};
ghost use Rattle.std.specs.Int.{w64};
ghost use Rattle.std.proofs.Common.{to_z};
ghost use Rattle.rules.specs.Outcome.{outcome_code, outcome_reason};
ghost use Rattle.rules.specs.Rules.{on_put, outcome_of, read_answered, refused_amount, refused_with, success};

use fields::kind::Kind;
use host::{PutReply, ReadReply};
use wire::message::Fields;

/// How a message came out. Its number is the code of the answer; the names of 10, 11, 13, 16, 19
/// and 20 are SET's. What each refusal leaves is in docs/refusals.md.
#[derive(Clone, Copy, PartialEq, Eq, Debug)]
pub enum Outcome {
    /// The message was carried out.
    Success = 0,
    /// The request number is remembered with other fields.
    RequestNumberUsed = 8,
    /// No further answer can be remembered.
    MemoryFull = 9,
    /// No purchase has the XID.
    UnknownXid = 10,
    /// The purchase is another course's, or on another card than the authorisation's.
    PiAuthMismatch = 11,
    /// The host was silent at the purchase's last put, and has not answered its repeat yet.
    InDoubt = 12,
    /// The purchase is authorised already.
    PiPreviouslyUsed = 13,
    /// There is no row for another purchase.
    PurchasesFull = 14,
    /// Nothing of the purchase is authorised.
    NothingAuthorised = 15,
    /// The purchase is captured already.
    DuplicateRequest = 16,
    /// Nothing of the purchase is captured.
    NothingCaptured = 17,
    /// The amount is above what the purchase leaves, or lowers nothing.
    AmountOutOfBounds = 18,
    /// The course has no batch of the number.
    BatchUnknown = 19,
    /// The batch is closed.
    BatchClosed = 20,
    /// Some of the capture is credited, or its batch is open and the message names another.
    NotReversible = 21,
    /// The course has a batch of the number already.
    BatchNumberUsed = 22,
    /// There is no row for another batch.
    BatchesFull = 23,
    /// The host refused to hold the amount, and holds what it held.
    HostRefused = 24,
    /// The host gave no answer: it holds what it held or what it was asked to.
    HostSilent = 25,
}

impl From<Outcome> for u8 {
    ghost from_gives = { λ outcome code. code ≡ outcome_code outcome };

    fn from(outcome: Outcome) -> u8 {
        outcome as u8
    }
}

impl Outcome {
    /// The outcome in words.
    pub fn reason(self) -> &'static str
        ensures { result.now ≡ outcome_reason self }
    {
        match self {
            Outcome::Success => "done",
            Outcome::RequestNumberUsed => "request number used",
            Outcome::MemoryFull => "memory full",
            Outcome::UnknownXid => "unknown purchase",
            Outcome::PiAuthMismatch => "another course's purchase or another card",
            Outcome::InDoubt => "purchase in doubt",
            Outcome::PiPreviouslyUsed => "already authorised",
            Outcome::PurchasesFull => "purchases full",
            Outcome::NothingAuthorised => "nothing authorised",
            Outcome::DuplicateRequest => "already captured",
            Outcome::NothingCaptured => "nothing captured",
            Outcome::AmountOutOfBounds => "amount out of bounds",
            Outcome::BatchUnknown => "batch unknown",
            Outcome::BatchClosed => "batch closed",
            Outcome::NotReversible => "capture not reversible",
            Outcome::BatchNumberUsed => "batch number used",
            Outcome::BatchesFull => "batches full",
            Outcome::HostRefused => "refused by the bank",
            Outcome::HostSilent => "not answered",
        }
    }
}

/// What a message is answered.
#[derive(Clone, Copy, PartialEq, Eq, Debug)]
pub struct Performed {
    /// How it came out.
    pub outcome: Outcome,
    /// In pence, as the eight bytes of an answer carry it: a batch total is in two's complement.
    pub amount: u64,
}

/// The amount of an answer that is not a success: the amount asked for an authorisation, 0 for any
/// other kind.
pub(crate) fn refused_amount(m: &Fields) -> u64
    ensures { result ≡ refused_amount m.now }
{
    if m.kind == u8::from(Kind::AuthReq) {
        m.amount
    } else {
        0
    }
}

impl Performed {
    /// The answer to a message that is refused.
    pub fn refused(m: &Fields, outcome: Outcome) -> Performed
        ensures { result ≡ refused_with m.now outcome }
    {
        Performed {
            outcome,
            amount: refused_amount(m),
        }
    }

    /// A success with this amount.
    pub(crate) fn success(amount: u64) -> Performed
        ensures { result ≡ success amount }
    {
        Performed {
            outcome: Outcome::Success,
            amount,
        }
    }

    /// The amount with its sign, where it is a batch total.
    pub fn signed(self) -> i64
        ensures { result ≡ to_z w64 self.amount }
    {
        self.amount.cast_signed()
    }
}

impl From<PutReply> for Outcome {
    ghost from_gives = { λ reply outcome. outcome ≡ outcome_of (on_put reply) };

    fn from(reply: PutReply) -> Outcome {
        match reply {
            PutReply::Done => Outcome::Success,
            PutReply::Refused => Outcome::HostRefused,
            PutReply::Silent => Outcome::HostSilent,
        }
    }
}

/// What an inquiry is answered: what the host holds, or nothing where it gave no answer.
impl From<ReadReply> for Performed {
    ghost from_gives = { λ reply answer. answer ≡ read_answered reply };

    fn from(reply: ReadReply) -> Performed {
        match reply {
            ReadReply::Holds(amount) => Performed {
                outcome: Outcome::Success,
                amount,
            },
            ReadReply::Silent => Performed {
                outcome: Outcome::HostSilent,
                amount: 0,
            },
        }
    }
}
