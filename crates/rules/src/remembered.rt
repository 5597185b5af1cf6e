//! The answers that are remembered, each with all fields of its message, and what they say of a
//! message.
ghost use Rattle.std.specs.Prelude.{◌≡◌, ◌==◌};
ghost use Rattle.fields.specs.Kind.{kind_number};
ghost use Rattle.fields.specs.declared.kind.Kind.TheVariants.{Inquiry};
ghost use Rattle.rules.specs.Ledger.{of_request};
ghost use Rattle.rules.specs.Recalled.{recalled_in};

use crate::outcome::{Outcome, Performed};
use crate::same::same_fields;
use fields::kind::Kind;
use rows::Keyed;
use wire::message::Fields;

/// An answer that is given again to the same message.
#[derive(Clone, Copy, PartialEq, Eq, Debug)]
pub struct Remembered {
    /// The message that it answers.
    pub fields: Fields,
    pub answer: Performed,
}

/// Whether the message is an inquiry: no answer to one is remembered.
pub fn is_inquiry(m: &Fields) -> bool
    ensures { result ≡ (m.now.kind == kind_number Inquiry) }
{
    m.kind == u8::from(Kind::Inquiry)
}

/// What the remembered answers say of a message.
#[derive(Clone, Copy)]
pub enum Recalled {
    /// It was answered so, and is answered so again.
    Answered(Performed),
    /// Its request number is used with other fields (check 8).
    Used,
    /// It is to be performed: for the first time, or again since the host was silent; then its
    /// answer stands at this place.
    Open(Option<usize>),
}

impl Recalled {
    /// What the row under a message's request number, at this place, says of it
    /// (docs/rules.md, "The ways a message goes").
    pub fn of(row: &Remembered, place: usize, m: &Fields) -> Recalled
        ensures { result ≡ recalled_in row.now place m.now }
    {
        if !same_fields(&row.fields, m) {
            return Recalled::Used;
        }
        match row.answer.outcome {
            Outcome::HostSilent => Recalled::Open(Some(place)),
            _ => Recalled::Answered(row.answer),
        }
    }
}

/// What a remembered answer is looked for by: course and request number.
#[derive(Clone, Copy)]
pub struct RequestKey {
    pub course: u32,
    pub request: u64,
}

impl RequestKey {
    /// The key under which a message's answer is remembered.
    pub fn of(m: &Fields) -> RequestKey
        ensures { result ≡ record { course = m.now.course; request = m.now.request } }
    {
        RequestKey {
            course: m.course,
            request: m.request,
        }
    }
}

impl Keyed for Remembered {
    type Key = RequestKey;

    ghost same = { λ r key. of_request key.course key.request r };

    fn has(&self, key: &RequestKey) -> bool {
        self.fields.request == key.request && self.fields.course == key.course
    }
}
