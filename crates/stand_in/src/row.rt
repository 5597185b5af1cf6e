//! The rows of a stand-in.
ghost use Rattle.std.specs.Prelude.{◌≡◌, ◌<◌, Some, not, slice_index_or, slice_set};
ghost use Rattle.stand_in.specs.Rows.{Kept, amount_in, dropped, has_key, is_free, no_rows};
ghost use Rattle.stand_in.specs.Rows.{place_for, row_amount, written};
ghost use Rattle.stand_in.specs.declared.row.Row.TheVariants.{Free};

use host::{Amount, Pair};
use rows::{Keyed, RowKey, place_for, search};
use std::marker::Model;

/// How many rows a stand-in has.
pub const ROWS: usize = 16;

/// A row of a stand-in.
#[derive(Clone, Copy, PartialEq, Eq, Debug)]
pub enum Row {
    Free,
    /// So much is held for the pair, in pence. A row of amount 0 stands too: nothing is held for
    /// it.
    Stands { pair: Pair, amount: Amount },
}

impl Row {
    /// Whether it stands.
    pub fn stands(self) -> bool
        ensures { result ≡ not (is_free self) }
    {
        self.amount().is_some()
    }

    /// The amount of a row that stands.
    fn amount(self) -> Option<Amount>
        ensures { result ≡ amount_in (Some self) }
    {
        match self {
            Row::Stands { amount, .. } => Some(amount),
            Row::Free => None,
        }
    }
}

impl Keyed for Row {
    type Key = RowKey<Pair>;

    ghost same = { has_key };

    fn has(&self, key: &RowKey<Pair>) -> bool {
        match (*self, *key) {
            (Row::Stands { pair, .. }, RowKey::Of(wanted)) => pair == wanted,
            (Row::Free, RowKey::Free) => true,
            (Row::Stands { .. }, RowKey::Free) | (Row::Free, RowKey::Of(_)) => false,
        }
    }
}

/// Sixteen rows, of which a pair has one at most.
#[derive(Drop)]
pub(crate) struct Rows {
    rows: [Row; ROWS],
}

impl Model for Rows {
    ghost use Rattle.std.specs.Prelude.{List};
    ghost use Rattle.stand_in.specs.Rows.{Kept};
    ghost use Rattle.stand_in.specs.declared.row.Row.{Row};

    ghost Value = { List Row };

    ghost view = { λ r. r.rows };

    ghost invariant = { λ r. Kept r.rows };
}

impl Rows {
    /// Rows that are all free.
    pub(crate) fn new() -> Rows
        ensures { result ≡ no_rows }
    {
        Rows {
            rows: [Row::Free; ROWS],
        }
    }

    /// The rows, free ones included.
    pub(crate) fn as_slice(&self) -> &[Row]
        ensures rows { result.now ≡ self.now }
        ensures kept { Kept self.now }
    {
        &self.rows
    }

    /// The amount of the pair's row, where one stands.
    #[tactic(auto, using(rows::proofs::First::stands_from_cases))]
    pub(crate) fn amount_of(&self, pair: Pair) -> Option<Amount>
        ensures amount { result ≡ row_amount self.now pair }
        ensures kept { Kept self.now }
    {
        match search(&self.rows, &RowKey::Of(pair)) {
            Some(place) => self.rows[place].amount(),
            None => None,
        }
    }

    /// Where an amount for the pair is written, and the amount of its row, where one stands.
    pub(crate) fn find(&self, pair: Pair) -> (Option<usize>, Option<Amount>)
        ensures place { result.0 ≡ place_for self.now pair }
        ensures own { result.1 ≡ row_amount self.now pair }
        ensures kept { Kept self.now }
    {
        match place_for(&self.rows, pair) {
            Some(place) => (Some(place), self.rows[place].amount()),
            None => (None, None),
        }
    }

    /// Writes the amount into the place found for the pair: its row, or the first free one.
    pub(crate) fn write(&mut self, pair: Pair, found: Option<usize>, amount: Amount)
        requires { found ≡ place_for self.old pair }
        ensures { self.new ≡ written self.old pair amount }
    {
        if let Some(place) = found {
            self.rows[place] = Row::Stands { pair, amount };
        }
    }

    /// Drops the row at the place.
    pub(crate) fn drop_at(&mut self, place: usize)
        requires { place < 16 }
        ensures { self.new ≡ slice_set self.old place Free }
    {
        self.rows[place] = Row::Free;
    }

    /// Drops the pair's row, which stands at the place found for it, if it has one.
    pub(crate) fn drop_row(&mut self, pair: Pair, found: Option<usize>)
        requires { found ≡ place_for self.old pair }
        ensures { self.new ≡ dropped self.old pair }
    {
        if let Some(place) = found {
            self.rows[place] = Row::Free;
        }
    }

    /// The row at the place.
    pub(crate) fn at(&self, place: usize) -> Row
        requires { place < 16 }
        ensures row { result ≡ slice_index_or self.now place Free }
        ensures kept { Kept self.now }
    {
        self.rows[place]
    }
}
