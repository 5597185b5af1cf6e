//! The bank of a rehearsal: an account book and a voucher drawer, split by card, behind a line that
//! may lose calls and answers, over which a stand-in may stand.
use host::{Amount, Card, Pair, SendsOn};
use hosts::account_book::{Account, AccountBook, Hold};
use hosts::voucher_drawer::{Voucher, VoucherDrawer};
use layers::bad_line::{BadLine, MARKS};
use layers::range_split::RangeSplit;
use rehearsal::bank::{BankLine, Side, mark_of};
use stand_in::{Row, StandIn};
use std::alloc::{AllocError, Global};

/// How many rows the account book has where none are given.
const ROWS: u8 = 4;

/// A host that shows what it holds without a call.
pub trait Shown: SendsOn {
    /// What is held for the pair.
    fn amount_held(&self, pair: Pair) -> Amount;

    /// Its rows where it is a stand-in, none for any other host.
    fn rows(&self) -> &[Row] {
        &[]
    }
}

impl Shown for AccountBook<'_> {
    fn amount_held(&self, pair: Pair) -> Amount {
        self.held(pair)
    }
}

impl Shown for VoucherDrawer<'_> {
    fn amount_held(&self, pair: Pair) -> Amount {
        self.held(pair)
    }
}

impl<H: Shown> Shown for BadLine<H> {
    fn amount_held(&self, pair: Pair) -> Amount {
        self.below().amount_held(pair)
    }
}

impl<L: Shown, R: Shown> Shown for RangeSplit<L, R> {
    fn amount_held(&self, pair: Pair) -> Amount {
        if self.is_left(pair.card) {
            self.left().amount_held(pair)
        } else {
            self.right().amount_held(pair)
        }
    }
}

impl<H: Shown> Shown for StandIn<H> {
    fn amount_held(&self, pair: Pair) -> Amount {
        match self.row_amount(pair) {
            Some(own) => own,
            None => self.below().amount_held(pair),
        }
    }

    fn rows(&self) -> &[Row] {
        StandIn::rows(self)
    }
}

/// The card of this number.
fn card_of(number: u64) -> Card {
    Card { number }
}

// Adds the marks that the words stand for. Those past what a line takes are left out.
fn add_marks(marks: &mut Vec<u8>, words: &[&str]) -> Result<(), AllocError> {
    for word in words {
        if marks.len() < MARKS {
            marks.push(mark_of(word).unwrap_or(0))?;
        }
    }
    Ok(())
}

/// Which bank a case asks for.
#[derive(Drop)]
pub struct Setup {
    pub accounts: Vec<Account>,
    pub vouchers: Vec<Voucher>,
    pub rows: u8,
    /// The bounds of the split, and the side that has the cards between.
    pub low: u64,
    pub high: u64,
    pub side: Side,
    pub marks: Vec<u8>,
    /// The floor of the stand-in, where there is one.
    pub floor: Option<Amount>,
}

impl Setup {
    /// No accounts and no vouchers, every card the book's, and no stand-in.
    pub fn new(alloc: Global) -> Setup {
        Setup {
            accounts: Vec::new(alloc),
            vouchers: Vec::new(alloc),
            rows: ROWS,
            low: 0,
            high: u64::MAX,
            side: Side::Book,
            marks: Vec::new(alloc),
            floor: None,
        }
    }

    /// Takes a line about the bank into account.
    pub fn add(&mut self, line: &BankLine<'_>) -> Result<(), AllocError> {
        match *line {
            BankLine::Account { card, balance } => self.accounts.push(Account {
                card: card_of(card),
                balance,
            })?,
            BankLine::Rows(count) => self.rows = count,
            BankLine::Voucher { card, face } => self.vouchers.push(Voucher {
                card: card_of(card),
                face,
                reference: 0,
                held: 0,
            })?,
            BankLine::Split { low, high, side } => {
                self.low = low;
                self.high = high;
                self.side = side;
            }
            BankLine::Line(words) => add_marks(&mut self.marks, words)?,
            BankLine::StandIn(floor) => self.floor = Some(floor),
        }
        Ok(())
    }

    /// Rows for the book's holds, all free.
    pub fn holds(&self, alloc: Global) -> Result<Vec<Hold>, AllocError> {
        vec![in alloc; Hold::FREE; usize::from(self.rows)]
    }
}
