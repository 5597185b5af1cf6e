//! What is shown of a message: its answer, what the bank holds of its purchase, and what the books
//! show.
use crate::bank::Shown;
use crate::line::Line;
use fields::field::Field;
use fields::kind::Kind;
use fields::refusal::Refusal;
use gateway::Gateway;
use gateway::batch::{Batch, BatchKey};
use gateway::outcome::Performed;
use gateway::purchase::Purchase;
use host::{Amount, Pair};
use rows::{RowKey, search};
use stand_in::Row;
use std::alloc::AllocError;
use std::fmt;
use wire::message::Fields;

/// What a message is answered, to be shown in words and number.
#[derive(Clone, Copy)]
pub enum Answered {
    /// The message cannot be opened.
    Short(Refusal),
    /// The message is performed.
    Full(Performed),
}

impl Answered {
    /// The code, and the amount of a full answer.
    pub fn numbers(&self) -> Numbers {
        match *self {
            Answered::Short(refusal) => Numbers(refusal.into(), None),
            Answered::Full(performed) => {
                Numbers(performed.outcome.into(), Some(performed.signed()))
            }
        }
    }

    /// Adds the code in number and words, and the amount, `-` for none.
    pub fn show(&self, line: &mut Line) -> Result<(), AllocError> {
        match *self {
            Answered::Short(refusal) => {
                line.add_number(u8::from(refusal))?;
                line.add(" ")?;
                line.add(refusal.reason())?;
                line.add(", -")
            }
            Answered::Full(performed) => {
                line.add_number(u8::from(performed.outcome))?;
                line.add(" ")?;
                line.add(performed.outcome.reason())?;
                line.add_labelled(", ", performed.signed())
            }
        }
    }
}

/// The code, and the amount of a full answer, as an expectation writes them.
#[derive(Clone, Copy, PartialEq, Eq)]
pub struct Numbers(pub u8, pub Option<i64>);

impl fmt::Display for Numbers {
    fn fmt<W: fmt::Write>(&self, f: &mut fmt::Formatter<W>) -> fmt::Result {
        let Numbers(code, amount) = self;
        match amount {
            Some(amount) => write!(f, "{code} {amount}"),
            None => write!(f, "{code} -"),
        }
    }
}

/// A purchase in the books, and what the bank holds for it.
#[derive(Clone, Copy)]
pub struct Standing {
    pub purchase: Purchase,
    pub held: Amount,
    /// Whether a row of the stand-in says so, and not the bank.
    pub is_by_stand_in: bool,
}

impl Standing {
    fn show(&self, line: &mut Line) -> Result<(), AllocError> {
        line.add("; card ")?;
        line.add_card(self.purchase.card.number)?;
        line.add_labelled(" holds ", self.held)?;
        if self.is_by_stand_in {
            line.add(" by the stand-in")?;
        }
        line.add_labelled("; authorised ", self.purchase.authorised)?;
        line.add_labelled(", captured ", self.purchase.captured)?;
        line.add_labelled(", credited ", self.purchase.credited)?;
        match self.purchase.doubt {
            Some(asked) => line.add_labelled(", in doubt over ", asked),
            None => Ok(()),
        }
    }
}

fn show_batch(batch: &Batch, line: &mut Line) -> Result<(), AllocError> {
    line.add_labelled("; batch ", batch.number)?;
    line.add(if batch.closed { " closed" } else { " open" })?;
    line.add_labelled(", total ", batch.total)
}

/// What the books and the bank show of a message's purchase and of its batch.
#[derive(Clone, Copy)]
pub struct Found {
    pub standing: Option<Standing>,
    pub batch: Option<Batch>,
}

impl Found {
    /// What is shown of a message of this kind with these fields.
    pub fn of<H: Shown>(gateway: &Gateway<H>, kind: Kind, fields: &Fields) -> Found {
        Found {
            standing: if kind.has(Field::Xid) {
                find_purchase(gateway, fields)
            } else {
                None
            },
            batch: if kind.has(Field::Batch) {
                find_batch(gateway, fields)
            } else {
                None
            },
        }
    }

    /// Adds what is found, if anything.
    pub fn show(&self, line: &mut Line) -> Result<(), AllocError> {
        if let Some(standing) = &self.standing {
            standing.show(line)?;
        }
        match &self.batch {
            Some(batch) => show_batch(batch, line),
            None => Ok(()),
        }
    }
}

/// How many rows of a stand-in stand.
pub fn count_standing(rows: &[Row]) -> usize {
    rows.iter().filter(|row| row.stands()).count()
}

/// Adds how many rows of those that stood were done, and each that still stands.
pub fn show_rows(stood: usize, rows: &[Row], line: &mut Line) -> Result<(), AllocError> {
    let done = stood.saturating_sub(count_standing(rows));
    line.add_labelled("send on: rows done ", done)?;
    line.add_labelled(" of ", stood)?;
    for row in rows {
        if let Row::Stands { pair, amount } = *row {
            line.add("; card ")?;
            line.add_card(pair.card.number)?;
            line.add_labelled(", reference ", pair.reference)?;
            line.add_labelled(", stands at ", amount)?;
        }
    }
    Ok(())
}

// The purchase that a message names; its reference is its row number, from 1.
fn find_purchase<H: Shown>(gateway: &Gateway<H>, fields: &Fields) -> Option<Standing> {
    let purchases = gateway.purchases();
    let place = search(purchases, &fields.xid)?;
    let purchase = purchases[place];
    let pair = Pair {
        card: purchase.card,
        reference: place as u64 + 1,
    };
    let host = gateway.host();
    Some(Standing {
        purchase,
        held: host.amount_held(pair),
        is_by_stand_in: search(host.rows(), &RowKey::Of(pair)).is_some(),
    })
}

// The batch that a message names.
fn find_batch<H>(gateway: &Gateway<H>, fields: &Fields) -> Option<Batch> {
    let place = search(gateway.batches(), &BatchKey::of(fields))?;
    Some(gateway.batches()[place])
}
