//! Puts and reads through a split, over a bad line over an account book on the left and a voucher
//! drawer on the right, and for each what was asked, what was answered and what is held after.
#![tactic(auto)]

ghost use Rattle.std.specs.Prelude.{◌≡◌, ◌≢◌, true, false};
ghost use Rattle.host.specs.declared.Fate.TheVariants.{LostGoing};
ghost use Rattle.hosts.specs.Book.{holds_after};
ghost use Rattle.hosts.specs.BookHost.{book_held};
ghost use Rattle.hosts.specs.Drawer.{vouchers_after};
ghost use Rattle.hosts.specs.DrawerHost.{drawer_held};
ghost use Rattle.layers.specs.Line.{line_held, marks_left, next_fate};
ghost use Rattle.layers.specs.Split.{is_left, split_held};

use console::arguments;
use console::shown::Masked;
use host::{Amount, Card, Host, Pair, PutReply, Reference};
use hosts::account_book::{Account, AccountBook, Hold};
use hosts::voucher_drawer::{Voucher, VoucherDrawer};
use layers::bad_line::BadLine;
use layers::range_split::RangeSplit;
use std::io;
use std::process::ExitCode;

const HELP: &str = "\
usage: lines
Reads nothing. Makes thirty puts and reads through a split by card over a line that loses calls and
answers, over an account book, on the left, and a voucher drawer on the right.
Prints for each call what was asked, what was answered and what is held after.
";

type Bank<'a, 'v> = RangeSplit<BadLine<AccountBook<'a>>, VoucherDrawer<'v>>;

// A call with its card, its reference and, for a put, its amount.
#[derive(Clone, Copy)]
enum Call {
    Put(Card, Reference, Amount),
    Read(Card, Reference),
}

use Call::{Put, Read};

// the cards of the accounts, which the left host has, and those of the vouchers
const ANNE: Card = Card {
    number: 4_111_111_111_111_111,
};

const BEN: Card = Card {
    number: 4_999_990_000_000_004,
};

const NO_ACCOUNT: Card = Card {
    number: 4_000_000_000_000_002,
};

const VOUCHER: Card = Card {
    number: 6_331_100_000_000_003,
};

const SHORT: Card = Card { number: 12_345 };

const LOW: u64 = 400_000;

const HIGH: u64 = 499_999;

// each call of the left host spends one; the last two find none left
const MARKS: [u8; 16] = [0, 0, 3, 0, 0, 9, 0, 0, 0, 0, 1, 0, 2, 0, 1, 2];

const CALLS: [Call; 30] = [
    // raises, up to the balance of 5000 and no further, and a lowering
    Put(ANNE, 1, 3000),
    Put(ANNE, 2, 2001),
    Put(ANNE, 2, 2000),
    Put(ANNE, 1, 2500),
    Read(ANNE, 1),
    // both rows are taken, until one is freed
    Put(BEN, 1, 100),
    Put(ANNE, 2, 0),
    Put(BEN, 1, 100),
    // no account
    Put(NO_ACCOUNT, 1, 50),
    Put(NO_ACCOUNT, 1, 0),
    // lost going, and its repeat; lost returning, and its repeat
    Put(ANNE, 1, 3000),
    Put(ANNE, 1, 3000),
    Put(ANNE, 1, 4000),
    Put(ANNE, 1, 4000),
    // reads that are lost, and one that is heard
    Read(ANNE, 1),
    Read(ANNE, 1),
    Read(ANNE, 1),
    Put(ANNE, 1, 5001),
    // a voucher of 800 under two references
    Put(VOUCHER, 7, 500),
    Put(VOUCHER, 8, 300),
    Put(VOUCHER, 7, 801),
    Put(VOUCHER, 7, 800),
    Put(VOUCHER, 8, 0),
    Read(VOUCHER, 7),
    Put(VOUCHER, 7, 0),
    Put(VOUCHER, 8, 300),
    Read(VOUCHER, 8),
    // a number under six digits is compared whole, and has no voucher here
    Put(SHORT, 1, 1),
    Put(SHORT, 1, 0),
    Read(SHORT, 1),
];

/// What is held now, without a call.
fn held(bank: &Bank<'_, '_>, pair: Pair) -> Amount
    ensures { result ≡ split_held (line_held book_held) drawer_held bank.now pair }
{
    if bank.is_left(pair.card) {
        bank.left().below().held(pair)
    } else {
        bank.right().held(pair)
    }
}

/// Puts through the split. For a card of the left host the line's next mark decides whether the put
/// reaches the book and its holds; for any other card it reaches the drawer and its vouchers.
fn put(bank: &mut Bank<'_, '_>, pair: Pair, amount: Amount) -> PutReply
    ensures lost { is_left bank.old pair.card ≡ true
        → next_fate (marks_left bank.old.left) ≡ LostGoing
        → bank.new.left.below.holds.now ≡ bank.old.left.below.holds.now }
    ensures made { let book = bank.old.left.below in
        is_left bank.old pair.card ≡ true
        → next_fate (marks_left bank.old.left) ≢ LostGoing
        → bank.new.left.below.holds.now
        ≡ holds_after book.accounts.now book.holds.now pair amount }
    ensures vouchers { is_left bank.old pair.card ≡ false
        → bank.new.right.vouchers.now ≡ vouchers_after bank.old.right.vouchers.now pair amount }
{
    bank.put(pair, amount)
}

/// Makes the call, and prints it with its answer and what is held after.
fn show(rt: &HostRuntime, bank: &mut Bank<'_, '_>, call: Call) -> io::Result<()> {
    match call {
        Put(card, reference, amount) => {
            let pair = Pair { card, reference };
            let reply = put(bank, pair, amount);
            let after = held(bank, pair);
            let shown = Masked(card.number);
            println!(rt; "put {shown} {reference} {amount}: {reply}, held {after}")
        }
        Read(card, reference) => {
            let pair = Pair { card, reference };
            let reply = bank.read(pair);
            let after = held(bank, pair);
            let shown = Masked(card.number);
            println!(rt; "read {shown} {reference}: {reply}, held {after}")
        }
    }
}

fn main(rt: HostRuntime) -> io::Result<ExitCode> {
    if let Some(status) = arguments::answer(&rt, HELP)? {
        return Ok(status);
    }
    let accounts = [
        Account {
            card: ANNE,
            balance: 5000,
        },
        Account {
            card: BEN,
            balance: 200,
        },
    ];
    let mut holds = [Hold::FREE; 2];
    let mut vouchers = [Voucher {
        card: VOUCHER,
        face: 800,
        reference: 0,
        held: 0,
    }];
    let book = AccountBook::new(&accounts, &mut holds);
    let line = BadLine::new(book, &MARKS);
    let drawer = VoucherDrawer::new(&mut vouchers);
    let mut bank = RangeSplit::new(line, drawer, LOW, HIGH);
    for call in CALLS {
        show(&rt, &mut bank, call)?;
    }
    Ok(ExitCode::SUCCESS)
}
