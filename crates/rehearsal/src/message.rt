//! A message as a rehearsal says it: the kind and the fields, but for course and request number.
ghost use Rattle.std.specs.Prelude.{◌≡◌};
ghost use Rattle.std.specs.Result.{OkIff};
ghost use Rattle.fields.specs.Kind.{kind_number};
ghost use Rattle.fields.specs.declared.kind.Kind.TheVariants.{AuthReq, AuthRevReq, CapRevReq};
ghost use Rattle.rehearsal.specs.Message.{HasOrder, IsBooking, booking_in, fields_with, kind_text, message_in, message_of};
ghost use Rattle.rehearsal.specs.Words.{Begins};

use crate::fault::Fault;
use crate::words::{only, pence, xid_of};
use fields::kind::Kind;
use wire::message::{Fields, Xid};

/// A message but for its course and request number. What its kind lacks is 0.
#[derive(Clone, Copy)]
pub struct Message {
    pub kind: Kind,
    /// the purchase's name, with zeros after it
    pub xid: Xid,
    /// the number of the card
    pub card: u64,
    /// in pence
    pub amount: u64,
    pub batch: u32,
}

/// The kind of message that begins with the word.
pub(crate) fn kind_of(word: &str) -> Option<Kind>
    ensures { Begins kind_text word.now result }
{
    Some(match word {
        "authorise" => Kind::AuthReq,
        "lower" => Kind::AuthRevReq,
        "capture" => Kind::CapReq,
        "reverse-capture" => Kind::CapRevReq,
        "credit" => Kind::CredReq,
        "reverse-credit" => Kind::CredRevReq,
        "open" => Kind::BatchOpen,
        "close" => Kind::BatchClose,
        "inquire" => Kind::Inquiry,
        _ => return None,
    })
}

impl Message {
    fn of(kind: Kind) -> Message
        ensures { result ≡ message_of kind }
    {
        Message {
            kind,
            xid: [0; 20],
            card: 0,
            amount: 0,
            batch: 0,
        }
    }

    /// The message under this request number of the course.
    pub fn fields(&self, course: u32, request: u64) -> Fields
        ensures { result ≡ fields_with course request self.now }
    {
        Fields {
            kind: self.kind.into(),
            request,
            course,
            xid: self.xid,
            card: self.card,
            amount: self.amount,
            batch: self.batch,
        }
    }

    // NAME CARD PENCE
    fn read_authorisation(rest: &[&str]) -> Result<Message, Fault>
        ensures { OkIff result (HasOrder AuthReq rest.now) (message_in AuthReq rest.now) }
    {
        let [name, card, amount] = rest else {
            return Err(Fault::Form);
        };
        Ok(Message {
            xid: xid_of(name)?,
            card: card.parse()?,
            amount: pence(amount)?,
            ..Message::of(Kind::AuthReq)
        })
    }

    // NAME PENCE
    fn read_authorisation_reversal(rest: &[&str]) -> Result<Message, Fault>
        ensures { OkIff result (HasOrder AuthRevReq rest.now) (message_in AuthRevReq rest.now) }
    {
        let [name, amount] = rest else {
            return Err(Fault::Form);
        };
        Ok(Message {
            xid: xid_of(name)?,
            amount: pence(amount)?,
            ..Message::of(Kind::AuthRevReq)
        })
    }

    // NAME PENCE batch NUMBER
    fn read_booking(kind: Kind, rest: &[&str]) -> Result<Message, Fault>
        ensures { OkIff result (IsBooking rest.now) (booking_in kind rest.now) }
    {
        let [name, amount, "batch", batch] = rest else {
            return Err(Fault::Form);
        };
        Ok(Message {
            xid: xid_of(name)?,
            amount: pence(amount)?,
            batch: batch.parse()?,
            ..Message::of(kind)
        })
    }

    // NAME batch NUMBER
    fn read_capture_reversal(rest: &[&str]) -> Result<Message, Fault>
        ensures { OkIff result (HasOrder CapRevReq rest.now) (message_in CapRevReq rest.now) }
    {
        let [name, "batch", batch] = rest else {
            return Err(Fault::Form);
        };
        Ok(Message {
            xid: xid_of(name)?,
            batch: batch.parse()?,
            ..Message::of(Kind::CapRevReq)
        })
    }

    /// The message of this kind that the words after the first describe.
    pub fn read(kind: Kind, rest: &[&str]) -> Result<Message, Fault>
        ensures { OkIff result (HasOrder kind rest.now) (message_in kind rest.now) }
    {
        match kind {
            Kind::AuthReq => Message::read_authorisation(rest),
            Kind::AuthRevReq => Message::read_authorisation_reversal(rest),
            Kind::CapReq | Kind::CredReq | Kind::CredRevReq => Message::read_booking(kind, rest),
            Kind::CapRevReq => Message::read_capture_reversal(rest),
            Kind::BatchOpen | Kind::BatchClose => Ok(Message {
                batch: only(rest)?.parse()?,
                ..Message::of(kind)
            }),
            Kind::Inquiry => Ok(Message {
                xid: xid_of(only(rest)?)?,
                ..Message::of(kind)
            }),
        }
    }
}
