//! What a message finds in the books, and what is to be done with it.
ghost use Rattle.std.specs.Prelude.{◌≡◌, ◌≤◌, true};
ghost use Rattle.std.specs.Option.{unwrap_or};
ghost use Rattle.rules.specs.Ledger.{most_answers, most_purchases, no_batch, no_purchase};
ghost use Rattle.rules.specs.Sound.{most_total, sound_purchase, within};

use crate::batch::Batch;
use crate::checks::book_refusal;
use crate::facts::Facts;
use crate::outcome::Performed;
use crate::plan::{Change, HostPut, Plan, RowWrite};
use crate::purchase::{Purchase, message_card};
use crate::remembered::Remembered;
use fields::kind::Kind;
use host::Pair;
use wire::message::Fields;
use wire::opened::Opened;

/// Where the rows that a message finds stand in their lists; where it finds none, where the next
/// row goes.
#[derive(Clone, Copy)]
pub struct Places {
    pub purchase: usize,
    pub batch: usize,
}

/// What a message finds in the books, looked up once; and what always holds of such rows.
#[derive(Drop)]
pub struct Found {
    pub facts: Facts,
    pub places: Places,
    ghost few: { facts.answers ≤ most_answers },
    ghost placed: { places.purchase ≤ most_purchases },
    ghost sound: { sound_purchase (unwrap_or facts.purchase no_purchase) ≡ true },
    ghost bounded: { within (most_total facts.answers) (unwrap_or facts.batch no_batch) ≡ true },
}

impl Found {
    ghost use Rattle.fields.specs.Kind.{most_pence};
    ghost use Rattle.rules.specs.Ledger.{Ledger, batch_in, purchase_in};
    ghost use Rattle.rules.specs.Change.{booking, capturing, closing_batch, crediting, opening_batch, reversing_capture, reversing_credit};
    ghost use Rattle.rules.specs.Found.{Finds, pair_in};
    ghost use Rattle.rules.specs.Plan.{Decides, own_or_new_row, own_row, put_for};
    ghost use Rattle.rules.specs.Recalled.{Recalls};
    ghost use Rattle.rules.specs.declared.remembered.Recalled.TheVariants.{Open};
    ghost use Rattle.rules.specs.Way.{Through};
    ghost use Rattle.rules.specs.Rules.{way};
    ghost use Rattle.rules.specs.Sound.{size};

    /// The purchase that the message names; a row of zeros where the books have none.
    fn purchase(&self) -> Purchase
        ensures row { result ≡ purchase_in self.now.facts }
        ensures credited { result.credited ≤ result.captured }
        ensures captured { result.captured ≤ most_pence }
    {
        self.facts.purchase.unwrap_or(Purchase::NONE)
    }

    /// The batch that the message names; a row of zeros where the books have none.
    fn batch(&self) -> Batch
        ensures row { result ≡ batch_in self.now.facts }
        ensures bound { size result.total ≤ most_total most_answers }
    {
        self.facts.batch.unwrap_or(Batch::NONE)
    }

    /// The card and the reference that the message's call is for. An authorisation brings its card.
    fn pair(&self, message: &Opened) -> Pair
        ensures { result ≡ pair_in self.now.facts self.now.places message.now.fields }
    {
        let m = message.fields();
        Pair {
            card: match message.kind() {
                Kind::AuthReq => message_card(&m),
                _ => self.purchase().card,
            },
            reference: self.places.purchase as u64 + 1,
        }
    }

    /// The row of the purchase, at the place where it was found.
    fn own_row(&self) -> RowWrite<Purchase>
        ensures { result ≡ own_row self.now.facts self.now.places }
    {
        RowWrite::Replace(self.places.purchase, self.purchase())
    }

    /// The row of the purchase, or a new one at the end where the books have none.
    fn own_or_new_row(&self, m: &Fields) -> RowWrite<Purchase>
        ensures { result ≡ own_or_new_row self.now.facts self.now.places m.now }
    {
        if self.facts.purchase.is_some() {
            self.own_row()
        } else {
            RowWrite::Append(Purchase::new(m))
        }
    }

    /// A put of the message's amount, which settles the row.
    fn put(&self, message: &Opened, row: RowWrite<Purchase>, answer_at: Option<usize>) -> HostPut
        ensures { result ≡ put_for self.now.facts self.now.places message.now.fields row answer_at }
    {
        HostPut {
            pair: self.pair(message),
            fields: message.fields(),
            purchase: row,
            answer_at,
        }
    }

    /// The purchase and the batch rewritten, and the answer with what is left of the capture.
    fn book(&self, m: &Fields, p: Purchase, b: Batch) -> Change
        ensures { result ≡ booking self.now.places m.now p b }
    {
        let answer = Performed::success(p.uncredited());
        Change {
            answer,
            purchase: Some(RowWrite::Replace(self.places.purchase, p)),
            batch: Some(RowWrite::Replace(self.places.batch, b)),
            remembered: RowWrite::Append(Remembered { fields: *m, answer }),
        }
    }

    /// Captures the message's amount, in its batch.
    fn capture(&self, message: &Opened) -> Change
        ensures { result ≡ capturing self.now.facts self.now.places message.now.fields }
    {
        let m = message.fields();
        let p = self.purchase().with_captured(m.amount, m.batch);
        self.book(&m, p, self.batch().plus(m.amount))
    }

    /// The reversal of a capture takes all of it back.
    fn reverse_capture(&self, message: &Opened) -> Change
        ensures { result ≡ reversing_capture self.now.facts self.now.places message.now.fields }
    {
        let p = self.purchase();
        let b = self.batch().minus(p.captured);
        self.book(&message.fields(), p.with_captured(0, p.batch), b)
    }

    fn credit(&self, message: &Opened) -> Change
        ensures { result ≡ crediting self.now.facts self.now.places message.now.fields }
    {
        let m = message.fields();
        let p = self.purchase();
        let p = p.with_credited(p.credited + m.amount);
        self.book(&m, p, self.batch().minus(m.amount))
    }

    fn reverse_credit(&self, message: &Opened) -> Change
        ensures { result ≡ reversing_credit self.now.facts self.now.places message.now.fields }
    {
        let m = message.fields();
        let p = self.purchase();
        let p = p.with_credited(p.credited.saturating_sub(m.amount));
        self.book(&m, p, self.batch().plus(m.amount))
    }

    /// A new batch, open, with nothing in it.
    fn open_batch(&self, m: &Fields) -> Change
        ensures { result ≡ opening_batch m.now }
    {
        let answer = Performed::success(0);
        Change {
            answer,
            purchase: None,
            batch: Some(RowWrite::Append(Batch::new(m))),
            remembered: RowWrite::Append(Remembered { fields: *m, answer }),
        }
    }

    /// The batch is closed, and its total is answered.
    fn close_batch(&self, m: &Fields) -> Change
        ensures { result ≡ closing_batch self.now.facts self.now.places m.now }
    {
        let b = self.batch();
        let answer = Performed::success(b.total.cast_unsigned());
        Change {
            answer,
            purchase: None,
            batch: Some(RowWrite::Replace(self.places.batch, b.close())),
            remembered: RowWrite::Append(Remembered { fields: *m, answer }),
        }
    }

    /// A message that no check refuses, by its kind.
    fn carry_out(&self, message: &Opened) -> Plan
        ensures { (l : Ledger) → Finds self.now l message.now.fields
            → way l message.now.fields ≡ Through → Decides result l message.now.fields }
    {
        let m = message.fields();
        match message.kind() {
            Kind::AuthReq => Plan::Put(self.put(message, self.own_or_new_row(&m), None)),
            Kind::AuthRevReq => Plan::Put(self.put(message, self.own_row(), None)),
            Kind::CapReq => Plan::Commit(self.capture(message)),
            Kind::CapRevReq => Plan::Commit(self.reverse_capture(message)),
            Kind::CredReq => Plan::Commit(self.credit(message)),
            Kind::CredRevReq => Plan::Commit(self.reverse_credit(message)),
            Kind::BatchOpen => Plan::Commit(self.open_batch(&m)),
            Kind::BatchClose => Plan::Commit(self.close_batch(&m)),
            Kind::Inquiry => Plan::Read(self.pair(message)),
        }
    }

    /// What is to be done with the message: a check of the books refuses it, or it is carried out.
    /// Where the host was silent its put is made again, and the new answer takes this place.
    pub fn plan(&self, message: &Opened, silent_at: Option<usize>) -> Plan
        ensures { (l : Ledger) → Finds self.now l message.now.fields
            → Recalls (Open silent_at) l message.now.fields → Decides result l message.now.fields }
    {
        let m = message.fields();
        match silent_at {
            Some(place) => Plan::Put(self.put(message, self.own_row(), Some(place))),
            None => match book_refusal(message.kind(), &self.facts, &m) {
                Some(outcome) => Plan::refuse(&m, outcome),
                None => self.carry_out(message),
            },
        }
    }
}
