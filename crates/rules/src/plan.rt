//! What is to be done with a message, and what it leaves in the books.
ghost use Rattle.std.specs.Prelude.{◌≡◌};
ghost use Rattle.rules.specs.Plan.{refusing, settled_row, settling};
ghost use Rattle.rules.specs.Rules.{on_put, put_answered, remembers};

use crate::batch::Batch;
use crate::outcome::{Outcome, Performed, refused_amount};
use crate::purchase::Purchase;
use crate::remembered::{Remembered, is_inquiry};
use host::{Pair, PutReply};
use wire::message::Fields;

/// What is written into one list of rows.
#[derive(Drop)]
pub enum RowWrite<R> {
    /// The row at this place becomes this one.
    Replace(usize, R),
    /// This row goes at the end.
    Append(R),
}

/// What performing a message leaves in the books, and its answer.
#[derive(Drop)]
pub struct Change {
    pub answer: Performed,
    /// What is written of its purchase, its batch and its answer.
    pub purchase: Option<RowWrite<Purchase>>,
    pub batch: Option<RowWrite<Batch>>,
    pub remembered: RowWrite<Remembered>,
}

/// A put that a message makes: of its amount, for this pair.
#[derive(Drop)]
pub struct HostPut {
    pub pair: Pair,
    /// The message, whose amount is put.
    pub fields: Fields,
    /// The purchase, before the host's reply settles it.
    pub purchase: RowWrite<Purchase>,
    /// Where the message's answer is remembered already, if it is.
    pub answer_at: Option<usize>,
}

/// What is to be done with a message.
#[derive(Drop)]
pub enum Plan {
    /// It is answered so, and nothing changes.
    Answer(Performed),
    /// It changes the books, and the host is not called.
    Commit(Change),
    /// It puts its amount to the host, whose reply settles the purchase.
    Put(HostPut),
    /// It reads what the host holds for the pair, and nothing changes.
    Read(Pair),
}

fn put_answered(m: &Fields, reply: PutReply) -> Performed
    ensures { result ≡ put_answered m.now (on_put reply) }
{
    let amount = match reply {
        PutReply::Done => m.amount,
        PutReply::Refused | PutReply::Silent => refused_amount(m),
    };
    Performed {
        outcome: Outcome::from(reply),
        amount,
    }
}

impl RowWrite<Purchase> {
    /// The same with the purchase settled by the reply.
    fn settled(self, reply: PutReply, amount: u64) -> RowWrite<Purchase>
        ensures { result ≡ settled_row (on_put reply) amount self }
    {
        match self {
            RowWrite::Replace(place, p) => RowWrite::Replace(place, p.settled(reply, amount)),
            RowWrite::Append(p) => RowWrite::Append(p.settled(reply, amount)),
        }
    }
}

impl HostPut {
    /// What the put leaves in the books, now that the host has replied.
    pub fn settled(self, reply: PutReply) -> Change
        ensures { result ≡ settling self (on_put reply) }
    {
        let answer = put_answered(&self.fields, reply);
        let row = Remembered {
            fields: self.fields,
            answer,
        };
        Change {
            answer,
            purchase: Some(self.purchase.settled(reply, self.fields.amount)),
            batch: None,
            remembered: match self.answer_at {
                Some(place) => RowWrite::Replace(place, row),
                None => RowWrite::Append(row),
            },
        }
    }
}

/// Whether a refusal of the message is remembered: all are but an inquiry's, and those because the
/// request number is used or the memory is full.
fn remembers(m: &Fields, outcome: Outcome) -> bool
    ensures { result ≡ remembers m.now outcome }
{
    !is_inquiry(m) && !matches!(outcome, Outcome::RequestNumberUsed | Outcome::MemoryFull)
}

impl Plan {
    /// A message that a check refuses moves nothing.
    pub(crate) fn refuse(m: &Fields, outcome: Outcome) -> Plan
        ensures { result ≡ refusing m.now outcome }
    {
        let answer = Performed::refused(m, outcome);
        if !remembers(m, outcome) {
            return Plan::Answer(answer);
        }
        Plan::Commit(Change {
            answer,
            purchase: None,
            batch: None,
            remembered: RowWrite::Append(Remembered { fields: *m, answer }),
        })
    }
}
