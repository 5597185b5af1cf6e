//! The words of a line: those before a comment, as they stand between white space.
ghost use Rattle.std.specs.Prelude.{◌≡◌, ◌≢◌, IfOk, IsOk, IsErr, IfErr, MatchResult, length};
ghost use Rattle.std.specs.Result.{OkIff};
ghost use Rattle.rehearsal.specs.Words.{IsName, IsUnsigned, number_of, said, word, xid_of};
ghost use Rattle.rehearsal.specs.WordsOf.{IsWordsOf};

use crate::fault::Fault;
use smallvec::SmallVec;
use std::alloc::{AllocError, Global};
use wire::message::Xid;

const NAME: usize = 20;

/// How many words of a line take no memory. Most statements have no more.
pub const FEW_WORDS: usize = 8;

/// The line without its comment, which `#` begins.
pub fn statement_part(line: &str) -> &str
    ensures { result.now ≡ said line.now }
{
    match line.split_once('#') {
        Some((front, _)) => front,
        None => line,
    }
}

/// The words of a line without its comment.
pub fn words_of(alloc: Global, line: &str) -> Result<SmallVec<&str, FEW_WORDS>, AllocError>
    ensures { IfOk result (λ words. IsWordsOf (said line.now) words.items) }
{
    let mut words = SmallVec::new(alloc);
    words.extend(statement_part(line).split_whitespace())?;
    Ok(words)
}

/// The word that stands alone.
pub(crate) fn only<'w>(words: &[&'w str]) -> Result<&'w str, Fault>
    ensures { MatchResult result
        (λ one. (length words.now ≡ 1) × (one.now ≡ word words.now 0))
        (λ _. length words.now ≢ 1) }
{
    match words {
        [word] => Ok(word),
        _ => Err(Fault::Form),
    }
}

/// An amount in pence.
pub fn pence(word: &str) -> Result<u64, Fault>
    ensures { OkIff result (IsUnsigned 64 word.now) (number_of word.now) }
{
    Ok(word.parse()?)
}

/// The XID that a purchase's name stands for: its bytes, and zeros after them.
pub fn xid_of(name: &str) -> Result<Xid, Fault>
    ensures { OkIff result (IsName name.now) (xid_of name.now) }
{
    if name.len() > NAME {
        return Err(Fault::Name);
    }
    let mut xid = [0; NAME];
    xid[..name.len()].copy_from_slice(name.as_bytes());
    Ok(xid)
}
