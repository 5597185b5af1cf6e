//! The books: purchases, remembered answers and batches. Rows are never freed, and memory is taken
//! once, when they are made.
ghost use Rattle.std.specs.Prelude.{◌≡◌, ◌≤◌, true, IfOk, length, vec_len, vec_capacity};
ghost use Rattle.rows.specs.First.{row_with};
ghost use Rattle.std.specs.Option.{unwrap_or};
ghost use Rattle.rules.specs.Ledger.{batch_row, captured_in_open, most_answers, most_purchases, no_batch, no_ledger, no_purchase, purchase_row};
ghost use Rattle.rules.specs.Change.{Fits, FitsIn, ledger_after, rows_after};
ghost use Rattle.rules.specs.Found.{Finds, place_in, places_of};
ghost use Rattle.rules.specs.Recalled.{Recalls};
ghost use Rattle.rules.specs.Sound.{most_total, sound_purchase, within};

use rows::{Keyed, search};
use rules::batch::{Batch, BatchKey};
use rules::facts::{ANSWERS, BATCHES, Facts, PURCHASES};
use rules::found::{Found, Places};
use rules::outcome::Performed;
use rules::plan::{Change, RowWrite};
use rules::purchase::Purchase;
use rules::remembered::{Recalled, Remembered, RequestKey, is_inquiry};
use std::alloc::{AllocError, Global};
use std::marker::Model;
use wire::message::Fields;
use wire::opened::Opened;

/// The rows of the books, in lists: a purchase's place in its list is its reference.
#[derive(Drop)]
pub struct Books {
    purchases: Vec<Purchase>,
    answers: Vec<Remembered>,
    batches: Vec<Batch>,
}

// Contracts see the rows alone.
impl Model for Books {
    ghost use Rattle.rules.specs.Ledger.{Ledger};

    ghost Value = { Ledger };

    ghost use Rattle.gateway.specs.Books.{Kept, shown};

    ghost view = { shown };

    ghost invariant = { Kept };
}

/// The first row that has the key, and its place; where no row has it, the place of the next row.
#[tactic(auto, using(rows::proofs::First::stands_from_cases))]
fn locate<R: Keyed + Copy>(rows: &[R], key: &R::Key) -> (Option<R>, usize)
    ensures row { result.0 ≡ row_with (λ row. R.same row key.now) rows.now }
    ensures place { result.1 ≡ place_in (λ row. R.same row key.now) rows.now }
    ensures within { result.1 ≤ length rows.now }
{
    match search(rows, key) {
        Some(place) => (Some(rows[place]), place),
        None => (None, rows.len()),
    }
}

/// Writes into a list that has a place for it.
fn write<R: Copy>(rows: &mut Vec<R>, write: Option<RowWrite<R>>)
    requires { FitsIn (vec_capacity rows.old) (λ _. true) write rows.old.items }
    ensures items { rows.new.items ≡ rows_after write rows.old.items }
    ensures capacity { vec_capacity rows.new ≡ vec_capacity rows.old }
{
    match write {
        None => {}
        Some(RowWrite::Replace(place, row)) => rows[place] = row,
        Some(RowWrite::Append(row)) => rows.push_reserved(row),
    }
}

impl Books {
    /// Empty books with room for every row.
    pub(crate) fn new(heap: Global) -> Result<Books, AllocError>
        ensures { IfOk result (λ b. b ≡ no_ledger) }
    {
        let purchases = Vec::with_capacity(heap, PURCHASES)?;
        let answers = Vec::with_capacity(heap, ANSWERS)?;
        let batches = Vec::with_capacity(heap, BATCHES)?;
        Ok(Books {
            purchases,
            answers,
            batches,
        })
    }

    #[tactic(auto, using(rules::proofs::Every::every_found))]
    fn find_purchase(&self, m: &Fields) -> (Option<Purchase>, usize)
        ensures row { result.0 ≡ purchase_row self.now m.now }
        ensures place { result.1 ≡ (places_of self.now m.now).purchase }
        ensures few { result.1 ≤ most_purchases }
        ensures sound { sound_purchase (unwrap_or result.0 no_purchase) ≡ true }
    {
        locate(self.purchases.as_slice(), &m.xid)
    }

    #[tactic(auto, using(rules::proofs::Every::every_found))]
    fn find_batch(&self, m: &Fields) -> (Option<Batch>, usize)
        ensures row { result.0 ≡ batch_row self.now m.now }
        ensures place { result.1 ≡ (places_of self.now m.now).batch }
        ensures bounded { let most = most_total (length self.now.answers) in
            within most (unwrap_or result.0 no_batch) ≡ true }
    {
        locate(self.batches.as_slice(), &BatchKey::of(m))
    }

    /// Whether something of the purchase is captured, in a batch that is open. A batch that the books
    /// do not have is read as open.
    fn captured_in_open(&self, p: &Purchase) -> bool
        ensures { result ≡ captured_in_open self.now p.now }
    {
        if p.captured == 0 {
            return false;
        }
        let (batch, _) = locate(self.batches.as_slice(), &BatchKey::of_capture(p));
        batch.is_none_or(|b| !b.closed)
    }

    /// What is remembered of the message. Inquiries are not remembered, and not looked for.
    #[inline(never)]
    pub(crate) fn recall(&self, message: &Opened) -> Recalled
        ensures { Recalls result self.now message.now.fields }
    {
        let answers = self.answers.as_slice();
        let m = message.fields();
        if is_inquiry(&m) {
            return Recalled::Open(None);
        }
        let (row, place) = locate(answers, &RequestKey::of(&m));
        match row {
            Some(row) => Recalled::of(&row, place, &m),
            None => Recalled::Open(None),
        }
    }

    /// The purchase and the batch that the message names, and whether that purchase is captured in
    /// an open batch.
    pub(crate) fn look_up(&self, message: &Opened) -> Found
        ensures { Finds result self.now message.now.fields }
    {
        let m = message.fields();
        let (purchase, purchase_at) = self.find_purchase(&m);
        let (batch, batch_at) = self.find_batch(&m);
        let captured_in_open = purchase.is_some_and(|p| self.captured_in_open(&p));
        Found {
            facts: Facts {
                answers: self.answers().len(),
                purchases: self.purchases().len(),
                batches: self.batches().len(),
                purchase,
                batch,
                captured_in_open,
            },
            places: Places {
                purchase: purchase_at,
                batch: batch_at,
            },
        }
    }

    /// Writes a change at its places, and gives its answer.
    pub(crate) fn commit(&mut self, change: Change) -> Performed
        requires { Fits change self.old }
        ensures answer { result ≡ change.answer }
        ensures books { self.new ≡ ledger_after change self.old }
    {
        write(&mut self.purchases, change.purchase);
        write(&mut self.batches, change.batch);
        write(&mut self.answers, Some(change.remembered));
        change.answer
    }

    pub(crate) fn purchases(&self) -> &[Purchase]
        ensures { result.now ≡ self.now.purchases }
    {
        self.purchases.as_slice()
    }

    pub(crate) fn answers(&self) -> &[Remembered]
        ensures rows { result.now ≡ self.now.answers }
        ensures few { length self.now.answers ≤ most_answers }
    {
        self.answers.as_slice()
    }

    pub(crate) fn batches(&self) -> &[Batch]
        ensures { result.now ≡ self.now.batches }
    {
        self.batches.as_slice()
    }
}
