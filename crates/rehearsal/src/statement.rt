//! What a line of a rehearsal says.
ghost use Rattle.std.specs.Prelude.{◌≡◌, All, MatchBool, length};
ghost use Rattle.std.specs.Option.{SomeIff};
ghost use Rattle.std.specs.Result.{OkIff};
ghost use Rattle.rehearsal.specs.Statement.{HasRest, IsAmount, IsByte, IsExpected, IsKeyword, ReadsWords, amount_of, byte_of, expected_in, other_text, rest_in};
ghost use Rattle.rehearsal.specs.Words.{Begins, IsUnsigned, number_of, word};

use crate::bank::{BankLine, BankWord};
use crate::fault::Fault;
use crate::message::{Message, kind_of};
use crate::words::only;
use fields::kind::Kind;

/// What a line begins with.
#[derive(Clone, Copy)]
pub enum Keyword {
    Bank(BankWord),
    Send(Kind),
    Other(OtherWord),
}

/// What a line begins with that is neither about the bank nor a message.
#[derive(Clone, Copy)]
pub enum OtherWord {
    Course,
    Request,
    Case,
    Fresh,
    Repeat,
    Bytes,
    Expect,
    SendOn,
}

/// What a line says.
#[derive(Clone, Copy)]
pub enum Statement<'w> {
    /// A line about the bank.
    Bank(BankLine<'w>),
    /// A message of the course under the next request number.
    Send(Message),
    /// The course of the messages that follow.
    Course(u32),
    /// The request number of the next message.
    Request(u64),
    /// A title, to be shown.
    Case(&'w [&'w str]),
    /// A new bank and a new gateway.
    Fresh,
    /// The very bytes of the message that was sent under this request number.
    Repeat(u64),
    /// These bytes, each by a word that `byte_of` knows.
    Bytes(&'w [&'w str]),
    /// What the message before was answered: the code, and the amount where the answer is a full
    /// one.
    Expect { code: u8, amount: Option<i64> },
    /// The bank's stand-in is to send on what it answered in the bank's place.
    SendOn,
}

/// The byte that two hexadecimal digits write.
pub fn byte_of(word: &str) -> Option<u8>
    ensures { SomeIff result (IsByte word.now) (byte_of word.now) }
{
    if word.len() != 2 || word.as_bytes()[0] == b'+' {
        return None;
    }
    u8::from_str_radix(word, 16).ok()
}

// The number that stands alone.
fn only_number(words: &[&str]) -> Result<u64, Fault>
    ensures { OkIff result ((length words.now ≡ 1) × IsUnsigned 64 (word words.now 0))
        (number_of (word words.now 0)) }
{
    Ok(only(words)?.parse()?)
}

// Whether each word writes a byte.
fn are_bytes(words: &[&str]) -> bool
    ensures { MatchBool result (All (λ word. IsByte word.now) words.now)
        (¬ All (λ word. IsByte word.now) words.now) }
{
    words.iter().all(|word| byte_of(word).is_some())
}

/// The amount that is expected: `-` for none.
fn amount_of(word: &str) -> Result<Option<i64>, Fault>
    ensures { OkIff result (IsAmount word.now) (amount_of word.now) }
{
    if word == "-" {
        return Ok(None);
    }
    Ok(Some(word.parse()?))
}

impl OtherWord {
    fn of(word: &str) -> Option<OtherWord>
        ensures { Begins other_text word.now result }
    {
        Some(match word {
            "course" => OtherWord::Course,
            "request" => OtherWord::Request,
            "case" => OtherWord::Case,
            "fresh" => OtherWord::Fresh,
            "repeat" => OtherWord::Repeat,
            "bytes" => OtherWord::Bytes,
            "expect" => OtherWord::Expect,
            "send" => OtherWord::SendOn,
            _ => return None,
        })
    }
}

impl Keyword {
    /// The statement that begins with the word.
    fn of(word: &str) -> Option<Keyword>
        ensures { IsKeyword word.now result }
    {
        if let Some(kind) = kind_of(word) {
            Some(Keyword::Send(kind))
        } else if let Some(begun) = OtherWord::of(word) {
            Some(Keyword::Other(begun))
        } else {
            Some(Keyword::Bank(BankWord::of(word)?))
        }
    }
}

impl<'w> Statement<'w> {
    // CODE PENCE, or CODE -
    fn read_expected(rest: &[&str]) -> Result<Statement<'w>, Fault>
        ensures { OkIff result (IsExpected rest.now) (expected_in rest.now) }
    {
        let [code, amount] = rest else {
            return Err(Fault::Form);
        };
        Ok(Statement::Expect {
            code: code.parse()?,
            amount: amount_of(amount)?,
        })
    }

    fn read_other(word: OtherWord, rest: &'w [&'w str]) -> Result<Statement<'w>, Fault>
        ensures { OkIff result (HasRest word rest.now) (rest_in word rest.entry) }
    {
        match word {
            OtherWord::Course => Ok(Statement::Course(only(rest)?.parse()?)),
            OtherWord::Request => Ok(Statement::Request(only_number(rest)?)),
            OtherWord::Case => Ok(Statement::Case(rest)),
            OtherWord::Fresh if rest.is_empty() => Ok(Statement::Fresh),
            OtherWord::Repeat => Ok(Statement::Repeat(only_number(rest)?)),
            OtherWord::Bytes if are_bytes(rest) => Ok(Statement::Bytes(rest)),
            OtherWord::Expect => Statement::read_expected(rest),
            OtherWord::SendOn if only(rest)? == "on" => Ok(Statement::SendOn),
            OtherWord::Fresh | OtherWord::Bytes | OtherWord::SendOn => Err(Fault::Form),
        }
    }

    /// The statement that the words of a line make. Which fault other words get is left open.
    pub fn read(words: &'w [&'w str]) -> Result<Statement<'w>, Fault>
        ensures { ReadsWords words.now result }
    {
        let Some((first, rest)) = words.split_first() else {
            return Err(Fault::Unknown);
        };
        match Keyword::of(first) {
            Some(Keyword::Bank(word)) => Ok(Statement::Bank(BankLine::read(word, rest)?)),
            Some(Keyword::Send(kind)) => Ok(Statement::Send(Message::read(kind, rest)?)),
            Some(Keyword::Other(word)) => Statement::read_other(word, rest),
            None => Err(Fault::Unknown),
        }
    }
}
