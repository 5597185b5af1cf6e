//! A batch in the books, and all that makes or rewrites one.
ghost use Rattle.std.specs.Prelude.{◌≡◌, ◌≤◌};
ghost use Rattle.fields.specs.Kind.{most_pence};
ghost use Rattle.rules.specs.Ledger.{most_answers, of_batch};
ghost use Rattle.rules.specs.Rules.{close, minus, new_batch, plus};
ghost use Rattle.rules.specs.Sound.{most_total, size};

use crate::purchase::Purchase;
use rows::Keyed;
use wire::message::Fields;

/// A batch of a course. A closed one keeps its total.
#[derive(Clone, Copy, PartialEq, Eq, Debug)]
pub struct Batch {
    /// The racecourse that it is of.
    pub course: u32,
    /// Its number, which the course gives once.
    pub number: u32,
    /// Whether it is closed, and takes nothing more.
    pub closed: bool,
    /// Captures and credit reversals less credits and capture reversals, in pence.
    pub total: i64,
}

/// A batch is known by its course and number.
#[derive(Clone, Copy)]
pub struct BatchKey {
    pub course: u32,
    pub number: u32,
}

impl BatchKey {
    /// The key of the batch that a message names.
    pub fn of(m: &Fields) -> BatchKey
        ensures { result ≡ record { course = m.now.course; number = m.now.batch } }
    {
        BatchKey {
            course: m.course,
            number: m.batch,
        }
    }

    /// The key of the batch that a purchase's capture went to.
    pub fn of_capture(p: &Purchase) -> BatchKey
        ensures { result ≡ record { course = p.now.course; number = p.now.batch } }
    {
        BatchKey {
            course: p.course,
            number: p.batch,
        }
    }
}

impl Keyed for Batch {
    type Key = BatchKey;

    ghost same = { λ b key. of_batch key.course key.number b };

    fn has(&self, key: &BatchKey) -> bool {
        self.number == key.number && self.course == key.course
    }
}

impl Batch {
    /// What stands for a batch that the books do not have.
    pub(crate) const NONE: Batch = Batch {
        course: 0,
        number: 0,
        closed: false,
        total: 0,
    };

    /// A new batch of this course and number, open, with nothing in it.
    pub(crate) fn new(m: &Fields) -> Batch
        ensures { result ≡ new_batch m.now }
    {
        Batch {
            course: m.course,
            number: m.batch,
            ..Batch::NONE
        }
    }

    /// The batch with an amount added to its total.
    pub(crate) fn plus(self, amount: u64) -> Batch
        requires small { amount ≤ most_pence }
        requires bound { size self.total ≤ most_total most_answers }
        ensures { result ≡ plus amount self }
    {
        Batch {
            total: self.total + amount as i64,
            ..self
        }
    }

    /// The batch with an amount taken from its total.
    pub(crate) fn minus(self, amount: u64) -> Batch
        requires small { amount ≤ most_pence }
        requires bound { size self.total ≤ most_total most_answers }
        ensures { result ≡ minus amount self }
    {
        Batch {
            total: self.total - amount as i64,
            ..self
        }
    }

    /// The batch once it is closed.
    pub(crate) fn close(self) -> Batch
        ensures { result ≡ close self }
    {
        Batch {
            closed: true,
            ..self
        }
    }
}
