//! A host that keeps holds against the balances of accounts.
ghost use Rattle.std.specs.Prelude.{◌≡◌, ◌+◌, map, length, replicate, is_some, nat_le};
ghost use Rattle.host.specs.Parts.{HoldsNothing, heard_puts, heard_reads};
ghost use Rattle.hosts.specs.Book.{PlacedAt, other_holds};
ghost use Rattle.hosts.specs.Book.{free_hold, freed, has_key, is_account, written};
ghost use Rattle.hosts.specs.BookHost.{BookPutStep, BookWritten, BookServes};
ghost use Rattle.hosts.specs.BookHost.{book_assent, book_held};
ghost use Rattle.hosts.specs.Keeper.{HeardReadStep};

use crate::keeper::{self, Keeper};
use host::{Amount, Card, Host, Pair, PutReply, ReadReply, SendsOn};
use rows::{Keyed, RowKey, place_for, search};

/// What a card's holds are covered by. The first account with a card counts.
#[derive(Clone, Copy, PartialEq, Eq, Debug)]
pub struct Account {
    pub card: Card,
    /// What the card's holds may come to, in pence.
    pub balance: Amount,
}

/// A row of the holds. One of amount 0 is free, and any other holds its amount for its pair.
#[derive(Clone, Copy, PartialEq, Eq, Debug)]
pub struct Hold {
    pub pair: Pair,
    /// In pence.
    pub amount: Amount,
}

impl Hold {
    /// A free row, as the book writes it.
    pub const FREE: Hold = Hold {
        pair: Pair {
            card: Card { number: 0 },
            reference: 0,
        },
        amount: 0,
    };
}

impl Keyed for Account {
    type Key = Card;

    ghost same = { λ account card. is_account card account };

    fn has(&self, card: &Card) -> bool {
        self.card == *card
    }
}

impl Keyed for Hold {
    type Key = RowKey<Pair>;

    ghost same = { has_key };

    fn has(&self, key: &RowKey<Pair>) -> bool {
        match *key {
            RowKey::Of(pair) => {
                self.pair.reference == pair.reference
                    && self.pair.card == pair.card
                    && self.amount != 0
            }
            RowKey::Free => self.amount == 0,
        }
    }
}

/// Whether the balance covers the amount and the card's holds under other references.
fn covers(balance: Amount, holds: &[Hold], pair: Pair, amount: Amount) -> bool
    ensures { result ≡ nat_le (amount + other_holds holds.now pair) balance }
{
    if amount > balance {
        return false;
    }
    let mut left = balance - amount;
    for hold in holds {
        if hold.pair.card == pair.card && hold.pair.reference != pair.reference {
            if hold.amount > left {
                return false;
            }
            left -= hold.amount;
        }
    }
    true
}

/// Frees the row of the pair. A pair has at most one in a book that was made cleared; where a lent
/// list had more, all go, so that nothing is held for the pair after.
#[tactic(auto, using(crate::proofs::InPlace::map_turn))]
fn release(holds: &mut [Hold], pair: Pair)
    ensures { holds.new ≡ map (freed pair) holds.old }
{
    for hold in holds.iter_mut() {
        if hold.has(&RowKey::Of(pair)) {
            *hold = Hold::FREE;
        }
    }
}

/// Writes the amount into the pair's row or the first free one; 0 frees the row.
fn write(holds: &mut [Hold], pair: Pair, found: Option<usize>, amount: Amount)
    requires { PlacedAt holds.old pair found }
    ensures { holds.new ≡ written holds.old pair amount }
{
    if amount == 0 {
        release(holds, pair);
    } else if let Some(place) = found {
        holds[place] = Hold { pair, amount };
    }
}

/// Accounts that it only reads, and holds that it keeps. Every call is heard.
#[derive(Drop)]
pub struct AccountBook<'a> {
    accounts: &'a [Account],
    holds: &'a mut [Hold],
}

impl<'a> AccountBook<'a> {
    /// A book over the accounts, with every row of the holds cleared.
    #[tactic(auto, using(crate::proofs::Book::free_holds_nothing))]
    pub fn new(accounts: &'a [Account], holds: &'a mut [Hold]) -> AccountBook<'a>
        ensures accounts { result.accounts.now ≡ accounts.now }
        ensures rows { result.holds.now ≡ replicate (length holds.old) free_hold }
        ensures nothing { HoldsNothing (book_held result) }

        // so the lent list is left with the book's last rows
        ensures same_list { result.holds.ghost_name ≡ holds.entry.ghost_name }
    {
        holds.fill(Hold::FREE);
        AccountBook { accounts, holds }
    }

    /// What is held for the pair.
    #[tactic(auto, using(rows::proofs::First::stands_from_cases))]
    pub fn held(&self, pair: Pair) -> Amount
        ensures { result ≡ book_held self.now pair }
    {
        match search(self.holds, &RowKey::Of(pair)) {
            Some(place) => self.holds[place].amount,
            None => 0,
        }
    }

    /// The rows of the holds, free ones included.
    pub fn holds(&self) -> &[Hold]
        ensures { result.now ≡ self.now.holds.now }
    {
        self.holds
    }
}

impl Keeper for AccountBook<'_> {
    ghost held = { book_held };

    ghost assent = { book_assent };

    ghost served = { BookServes };

    ghost written = { BookWritten };

    fn place(&self, pair: Pair) -> Option<usize> {
        place_for(self.holds, pair)
    }

    // where the pair has no row the place is a free one's, of amount 0
    fn amount_held(&self, pair: Pair, found: Option<usize>) -> Amount {
        match found {
            Some(place) => self.holds[place].amount,
            None => 0,
        }
    }

    #[tactic(auto, using(rows::proofs::First::stands_from_cases))]
    fn assents(&self, pair: Pair, found: Option<usize>, amount: Amount) -> bool {
        match search(self.accounts, &pair.card) {
            Some(place) => {
                covers(self.accounts[place].balance, self.holds, pair, amount) && found.is_some()
            }
            None => false,
        }
    }

    #[tactic(auto, using(crate::proofs::Book::written_holds))]
    fn write(&mut self, pair: Pair, found: Option<usize>, amount: Amount) {
        write(self.holds, pair, found, amount);
    }
}

impl Host for AccountBook<'_> {
    ghost held = { book_held };

    ghost assent = { book_assent };

    ghost put_fate = { λ _. heard_puts };

    ghost read_fate = { λ _. heard_reads };

    ghost put_step = { BookPutStep };

    ghost read_step = { HeardReadStep book_held };

    fn put(&mut self, pair: Pair, amount: Amount) -> PutReply {
        keeper::put(self, pair, amount)
    }

    fn read(&mut self, pair: Pair) -> ReadReply {
        ReadReply::Holds(self.held(pair))
    }
}

/// It has nothing to send on: what it answers done it holds.
impl SendsOn for AccountBook<'_> {
    ghost send_step = { λ before after. after ≡ before };

    fn send_on(&mut self) {}
}
