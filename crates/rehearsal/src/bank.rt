//! The lines of a rehearsal that say which bank stands behind the gateway.
ghost use Rattle.std.specs.Prelude.{◌≡◌, is_some};
ghost use Rattle.std.specs.List.{list_all};
ghost use Rattle.std.specs.Result.{OkIff};
ghost use Rattle.rehearsal.specs.Bank.{HasBank, IsFunded, IsSides, IsSplit, bank_in, bank_text, mark_of, side_of, split_in};
ghost use Rattle.rehearsal.specs.Words.{Begins, number_of, word};

use crate::fault::Fault;
use crate::words::{only, pence};
use layers::bad_line::{LOSES_ANSWER, LOSES_CALL};

/// What a line about the bank begins with.
#[derive(Clone, Copy)]
pub enum BankWord {
    Account,
    Rows,
    Voucher,
    Split,
    Line,
    StandIn,
}

impl BankWord {
    /// The line about the bank that begins with the word.
    pub(crate) fn of(word: &str) -> Option<BankWord>
        ensures { Begins bank_text word.now result }
    {
        Some(match word {
            "account" => BankWord::Account,
            "rows" => BankWord::Rows,
            "voucher" => BankWord::Voucher,
            "split" => BankWord::Split,
            "line" => BankWord::Line,
            "stand-in" => BankWord::StandIn,
            _ => return None,
        })
    }
}

/// One of the two hosts of a rehearsal's bank.
#[derive(Clone, Copy)]
pub enum Side {
    Book,
    Drawer,
}

/// A line about the bank. Cards are by their numbers, amounts in pence.
#[derive(Clone, Copy)]
pub enum BankLine<'w> {
    /// An account of the book.
    Account { card: u64, balance: u64 },
    /// How many rows the book has for holds.
    Rows(u8),
    /// A voucher of the drawer.
    Voucher { card: u64, face: u64 },
    /// Which side has the cards whose leading six digits lie between two bounds, ends included; the
    /// other side has all others.
    Split { low: u64, high: u64, side: Side },
    /// What becomes of the next calls of the bank, each by a word that `mark_of` knows.
    Line(&'w [&'w str]),
    /// A stand-in over the line, with this floor in pence.
    StandIn(u64),
}

/// The mark of a bad line that a word stands for.
pub fn mark_of(word: &str) -> Option<u8>
    ensures { result ≡ mark_of word.now }
{
    match word {
        "heard" => Some(0),
        "lose-call" => Some(LOSES_CALL),
        "lose-answer" => Some(LOSES_ANSWER),
        _ => None,
    }
}

// Whether each word stands for a mark.
fn are_marks(words: &[&str]) -> bool
    ensures { result ≡ list_all (λ word. is_some (mark_of word.now)) words.now }
{
    words.iter().all(|word| mark_of(word).is_some())
}

// CARD PENCE
fn read_funds(rest: &[&str]) -> Result<(u64, u64), Fault>
    ensures { OkIff result (IsFunded rest.now)
        (number_of (word rest.now 0), number_of (word rest.now 1)) }
{
    let [card, amount] = rest else {
        return Err(Fault::Form);
    };
    Ok((card.parse()?, pence(amount)?))
}

// The side that has the cards between the bounds; the second word is the other side's.
fn read_side(between: &str, others: &str) -> Result<Side, Fault>
    ensures { OkIff result (IsSides between.now others.now) (side_of between.now) }
{
    match (between, others) {
        ("book", "drawer") => Ok(Side::Book),
        ("drawer", "book") => Ok(Side::Drawer),
        _ => Err(Fault::Form),
    }
}

impl<'w> BankLine<'w> {
    // LOW HIGH, and then whose the cards between are, and whose all others
    fn read_split(rest: &[&str]) -> Result<BankLine<'w>, Fault>
        ensures { OkIff result (IsSplit rest.now) (split_in rest.now) }
    {
        let [low, high, between, others] = rest else {
            return Err(Fault::Form);
        };
        Ok(BankLine::Split {
            low: low.parse()?,
            high: high.parse()?,
            side: read_side(between, others)?,
        })
    }

    /// The line about the bank that begins with this word and goes on with the others.
    pub fn read(word: BankWord, rest: &'w [&'w str]) -> Result<BankLine<'w>, Fault>
        ensures { OkIff result (HasBank word rest.now) (bank_in word rest.entry) }
    {
        match word {
            BankWord::Account => {
                let (card, balance) = read_funds(rest)?;
                Ok(BankLine::Account { card, balance })
            }
            BankWord::Rows => Ok(BankLine::Rows(only(rest)?.parse()?)),
            BankWord::Voucher => {
                let (card, face) = read_funds(rest)?;
                Ok(BankLine::Voucher { card, face })
            }
            BankWord::Split => BankLine::read_split(rest),
            BankWord::Line if are_marks(rest) => Ok(BankLine::Line(rest)),
            BankWord::Line => Err(Fault::Form),
            BankWord::StandIn => Ok(BankLine::StandIn(pence(only(rest)?)?)),
        }
    }
}
