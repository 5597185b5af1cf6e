//! The interface to a bank, known by its meaning alone: what is held, what would be raised, and
//! what becomes of a call on its way there and back.
#![tactic(auto)]

ghost use Rattle.host.specs.Meaning.{PutMeans, ReadMeans};
ghost use Rattle.host.specs.Parts.{Assents, Holdings, PutFates, PutSteps, ReadFates, ReadSteps};
ghost use Rattle.host.specs.Parts.{SameHeld};
ghost use Rattle.host.specs.Words.{put_word, read_words};
ghost use Rattle.std.specs.Prelude.{Some};

use std::fmt;

/// A card. Two cards are the same if their numbers are.
#[derive(Clone, Copy, PartialEq, Eq, Debug)]
pub struct Card {
    /// The number on the card, read as one decimal number.
    pub number: u64,
}

/// What a host knows a purchase by.
pub type Reference = u64;

/// An amount of money in pence.
pub type Amount = u64;

/// What a hold stands under: a card, and the reference of the purchase that it is held for.
#[derive(Clone, Copy, PartialEq, Eq, Debug)]
pub struct Pair {
    pub card: Card,
    pub reference: Reference,
}

/// What becomes of a call on its way to the host and back.
#[derive(Clone, Copy, PartialEq, Eq, Debug)]
pub enum Fate {
    /// The host hears the call, and its reply comes back.
    Heard,
    /// The host hears nothing of the call, and no reply comes.
    LostGoing,
    /// The host hears the call and does as it would otherwise, and its reply is lost.
    LostReturning,
}

/// What a host replies to a put.
#[derive(Clone, Copy, PartialEq, Eq, Debug)]
pub enum PutReply {
    /// The amount asked for is held now.
    Done,
    /// The host did not raise the hold: what is held is as before.
    Refused,
    /// No reply came: what is held is as before or as asked for.
    Silent,
}

/// What a host replies to a read.
#[derive(Clone, Copy, PartialEq, Eq, Debug)]
pub enum ReadReply {
    /// So much is held.
    Holds(Amount),
    /// No reply came.
    Silent,
}

/// A host. The first four ghost members are its meaning, worked out from what it contains now; the
/// fates and the assents after a call are free, and every amount held is not. The last two say what
/// exactly one call makes of the host, so that a caller can promise that it made this one and no
/// other.
pub trait Host {
    ghost held: { Self → Holdings };

    ghost assent: { Self → Assents };

    ghost put_fate: { Self → PutFates };

    ghost read_fate: { Self → ReadFates };

    // the host before one put of an amount for a pair, its reply, and the host after
    ghost put_step: { PutSteps Self };

    // the host before one read for a pair, its reply, and the host after
    ghost read_step: { ReadSteps Self };

    /// Asks that the amount held for the pair become this one.
    fn put(&mut self, pair: Pair, amount: Amount) -> PutReply
        ensures means { PutMeans (put_fate self.old) (held self.old) (assent self.old)
            (held self.new) pair amount result }
        ensures step { put_step self.old pair amount result self.new };

    /// Asks what is held for the pair.
    fn read(&mut self, pair: Pair) -> ReadReply
        ensures means { ReadMeans (read_fate self.old) (held self.old) (held self.new) pair result }
        ensures step { read_step self.old pair result self.new };
}

/// A host that can be told to send on what a stand-in, itself or one below it, answered in place of
/// a silent bank. Where there is none, nothing is sent on. Being told to is neither a put nor a
/// read: it moves no amount held, and may come between any two calls.
pub trait SendsOn: Host {
    // the host before it sends on, and the host after
    ghost send_step: { Self → Self → Type 0 };

    /// Sends on to the bank what was answered in its place.
    fn send_on(&mut self)
        ensures holds { SameHeld (Self.held self.new) (Self.held self.old) }
        ensures step { send_step self.old self.new };
}

impl fmt::Display for PutReply {
    ghost output = { λ reply. Some (put_word reply) };

    fn fmt<W: fmt::Write>(&self, f: &mut fmt::Formatter<W>) -> fmt::Result {
        f.write_str(match self {
            PutReply::Done => "done",
            PutReply::Refused => "refused",
            PutReply::Silent => "silent",
        })
    }
}

impl fmt::Display for ReadReply {
    ghost output = { λ reply. Some (read_words reply) };

    fn fmt<W: fmt::Write>(&self, f: &mut fmt::Formatter<W>) -> fmt::Result {
        match self {
            ReadReply::Holds(amount) => write!(f, "holds {amount}"),
            ReadReply::Silent => f.write_str("silent"),
        }
    }
}
