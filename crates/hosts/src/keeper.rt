//! What a host that hears every put makes of one, whatever the rows that it keeps.
ghost use Rattle.std.specs.Prelude.{◌≡◌, ℕ, Option, true, MatchBool};
ghost use Rattle.host.specs.Meaning.{PutMeans, held_after};
ghost use Rattle.host.specs.Parts.{Assents, Holdings, Pence, SameHeld, heard_puts};
ghost use Rattle.host.specs.declared.Pair.{Pair};
ghost use Rattle.hosts.specs.Keeper.{granted};

use host::{Amount, Pair, PutReply};

/// A host that hears every call, and keeps what it holds in rows of its own.
pub(crate) trait Keeper {
    ghost held: { Self → Holdings };

    ghost assent: { Self → Assents };

    // the place of the row that serves a pair, or none
    ghost served: { Self → Pair → Option ℕ → Type 0 };

    // what it is before and after an amount is written for a pair
    ghost written: { Self → Pair → Pence → Self → Type 0 };

    /// The place of the row that serves the pair, for which a call looks once.
    fn place(&self, pair: Pair) -> Option<usize>
        ensures { served self.now pair result };

    /// What is held for the pair, whose row was found.
    fn amount_held(&self, pair: Pair, found: Option<usize>) -> Amount
        requires { served self.now pair found }
        ensures { result ≡ held self.now pair };

    /// Whether it would raise a hold of the pair to the amount.
    fn assents(&self, pair: Pair, found: Option<usize>, amount: Amount) -> bool
        requires { served self.now pair found }
        ensures { result ≡ assent self.now pair amount };

    /// Writes the amount for the pair, which is then what it holds if that was granted.
    fn write(&mut self, pair: Pair, found: Option<usize>, amount: Amount)
        requires { served self.old pair found }
        ensures rows { written self.old pair amount self.new }
        ensures holds { granted (held self.old) (assent self.old) pair amount ≡ true
            → SameHeld (held self.new) (held_after (held self.old) pair amount) };
}

/// A put that is heard: done where it is no raise or has assent, and refused otherwise.
pub(crate) fn put<K: Keeper>(keeper: &mut K, pair: Pair, amount: Amount) -> PutReply
    ensures means { PutMeans heard_puts (K.held keeper.old) (K.assent keeper.old)
        (K.held keeper.new) pair amount result }
    ensures rows { MatchBool (granted (K.held keeper.old) (K.assent keeper.old) pair amount)
        (K.written keeper.old pair amount keeper.new)
        (keeper.new ≡ keeper.old) }
{
    let found = keeper.place(pair);
    if amount <= keeper.amount_held(pair, found) || keeper.assents(pair, found, amount) {
        keeper.write(pair, found, amount);
        PutReply::Done
    } else {
        PutReply::Refused
    }
}
