//! One search for every kind of row.
#![tactic(auto)]

ghost use Rattle.std.specs.Prelude.{◌≡◌, ◌<◌, Bool, IfSome, length};
ghost use Rattle.rows.specs.Either.{first_either};
ghost use Rattle.rows.specs.First.{FirstOrNone};
ghost use Rattle.rows.specs.declared.RowKey.TheVariants.{Of, Free};

/// A row that can be looked for by a key of its own kind: a card for an account or a voucher, a
/// pair or "free" for a hold or a row of a stand-in, an XID for a purchase, course and number for a
/// batch, course and request number for a remembered answer.
pub trait Keyed {
    /// What such a row is looked for by.
    type Key;

    /// What it means that a row has a key.
    ghost same: { Self → Self.Key → Bool };

    /// Whether this row has the key.
    fn has(&self, key: &Self::Key) -> bool
        ensures { result ≡ same self.now key.now };
}

/// The place of the first row that has the key, or nothing where no row has it.
pub fn search<R: Keyed>(rows: &[R], key: &R::Key) -> Option<usize>
    ensures { FirstOrNone (λ row. R.same row key.now) rows.now result }
{
    rows.iter().position(|row| row.has(key))
}

/// What a row is looked for by in a list of which some rows are free.
#[derive(Clone, Copy)]
pub enum RowKey<K> {
    /// What it stands for.
    Of(K),
    /// That it is free.
    Free,
}

/// Where a row of the key is written: the place of its own row, else of the first free one.
#[tactic(auto, using(crate::proofs::First::first_from_cases))]
pub fn place_for<K: Drop, R: Keyed<Key = RowKey<K>>>(rows: &[R], key: K) -> Option<usize>
    ensures place { result ≡ first_either (λ row. R.same row (Of key)) (λ row. R.same row Free)
        rows.now }
    ensures within { IfSome result (λ place. place < length rows.now) }
{
    search(rows, &RowKey::Of(key)).or_else(|| search(rows, &RowKey::Free))
}
