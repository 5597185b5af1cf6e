//! The nine kinds of message: the fields of each, and from these its map and its length; the
//! amounts it allows.
ghost use Rattle.std.specs.Prelude.{◌≡◌, Some};
ghost use Rattle.fields.specs.Field.{bit_of, stands};
ghost use Rattle.fields.specs.Kind.{kind_number, IsKindOf, map_of, length_of, KindsComeOut, amount_allowed, kind_name};

use crate::field::{Field, Map};
use crate::refusal::Refusal;
use std::fmt;

/// The largest amount in pence that a message may carry: one penny under a million pounds.
pub const MOST_PENCE: u64 = 99_999_999;

/// The nine kinds of message, each with its number on the wire. Any other number is refused with
/// `Refusal::UnknownKind`.
#[derive(Clone, Copy, PartialEq, Eq, Debug)]
pub enum Kind {
    /// An authorisation sets an amount aside on a card; SET's AuthReq.
    AuthReq = 1,
    /// An authorisation reversal lowers it, or lifts it by 0; SET's AuthRevReq.
    AuthRevReq = 2,
    /// A capture takes the payment, wholly or in part; SET's CapReq.
    CapReq = 3,
    /// A capture reversal undoes a capture; SET's CapRevReq.
    CapRevReq = 4,
    /// A credit gives back what was captured, wholly or in part; SET's CredReq.
    CredReq = 5,
    /// A credit reversal takes a credit back; SET's CredRevReq.
    CredRevReq = 6,
    /// Opens a batch; one use of SET's BatchAdminReq.
    BatchOpen = 7,
    /// Closes a batch; another use of SET's BatchAdminReq.
    BatchClose = 8,
    /// Asks what the host holds for a purchase; SET's InqReq.
    Inquiry = 9,
}

impl From<Kind> for u8 {
    ghost from_gives = { λ kind n. n ≡ kind_number kind };

    fn from(kind: Kind) -> u8 {
        kind as u8
    }
}

impl TryFrom<u8> for Kind {
    type Error = Refusal;

    ghost try_from_gives = { IsKindOf };

    fn try_from(n: u8) -> Result<Kind, Refusal> {
        match n {
            1 => Ok(Kind::AuthReq),
            2 => Ok(Kind::AuthRevReq),
            3 => Ok(Kind::CapReq),
            4 => Ok(Kind::CapRevReq),
            5 => Ok(Kind::CredReq),
            6 => Ok(Kind::CredRevReq),
            7 => Ok(Kind::BatchOpen),
            8 => Ok(Kind::BatchClose),
            9 => Ok(Kind::Inquiry),
            _ => Err(Refusal::UnknownKind),
        }
    }
}

impl Kind {
    /// The map of every message of this kind.
    pub fn map(self) -> Map
        ensures { result.bits ≡ map_of (kind_number self) }
    {
        let bits = match self {
            Kind::AuthReq => 0xFC00,
            Kind::AuthRevReq => 0xF400,
            Kind::CapReq | Kind::CredReq | Kind::CredRevReq => 0xF600,
            Kind::CapRevReq => 0xF200,
            Kind::BatchOpen | Kind::BatchClose => 0xE200,
            Kind::Inquiry => 0xF000,
        };
        Map { bits }
    }

    /// Whether a message of this kind has the field.
    pub fn has(self, field: Field) -> bool
        ensures { result ≡ stands (map_of (kind_number self)) (bit_of field) }
    {
        self.map().has(field)
    }

    /// How many bytes a message of this kind has.
    pub fn length(self) -> usize
        ensures value { result ≡ length_of (kind_number self) }
        ensures table { KindsComeOut }
    {
        self.map().length()
    }

    /// Whether a message of this kind may carry this amount in pence. A kind without an amount
    /// allows only 0.
    pub fn allows(self, amount: u64) -> bool
        ensures { result ≡ amount_allowed (kind_number self) amount }
    {
        let (least, most) = match self {
            Kind::AuthReq | Kind::CapReq | Kind::CredReq | Kind::CredRevReq => (1, MOST_PENCE),
            Kind::AuthRevReq => (0, MOST_PENCE),
            Kind::CapRevReq | Kind::BatchOpen | Kind::BatchClose | Kind::Inquiry => (0, 0),
        };
        least <= amount && amount <= most
    }

    /// The name of the message: SET's, or plain words for the three that SET has under other names.
    pub fn name(self) -> &'static str
        ensures { result.now ≡ kind_name self }
    {
        match self {
            Kind::AuthReq => "AuthReq",
            Kind::AuthRevReq => "AuthRevReq",
            Kind::CapReq => "CapReq",
            Kind::CapRevReq => "CapRevReq",
            Kind::CredReq => "CredReq",
            Kind::CredRevReq => "CredRevReq",
            Kind::BatchOpen => "batch open",
            Kind::BatchClose => "batch close",
            Kind::Inquiry => "inquiry",
        }
    }
}

impl fmt::Display for Kind {
    ghost output = { λ kind. Some (kind_name kind) };

    fn fmt<W: fmt::Write>(&self, f: &mut fmt::Formatter<W>) -> fmt::Result {
        f.write_str(self.name())
    }
}
