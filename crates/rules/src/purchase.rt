//! A purchase in the books, and all that makes or rewrites one.
ghost use Rattle.std.specs.Prelude.{◌≡◌};
ghost use Rattle.rules.specs.Ledger.{of_xid, uncredited};
ghost use Rattle.rules.specs.MessageCard.{message_card};
ghost use Rattle.rules.specs.Rules.{new_purchase, on_put, settled, with_captured, with_credited};

use crate::same::same_xid;
use host::{Card, PutReply};
use rows::Keyed;
use wire::message::{Fields, Xid};

/// A purchase. Its reference is its row number, from 1. Amounts are pence.
#[derive(Clone, Copy, PartialEq, Eq, Debug)]
pub struct Purchase {
    /// Its name, given by the terminal (SET's XID).
    pub xid: Xid,
    /// The racecourse that it was made at.
    pub course: u32,
    /// The card that the stake is held on.
    pub card: Card,
    /// The amount of its last put that was done, 0 where nothing is authorised.
    pub authorised: u64,
    /// What is captured of it, at most what is authorised.
    pub captured: u64,
    /// What of the capture is given back.
    pub credited: u64,
    /// The batch of the capture, 0 before any; it stays where the capture is reversed.
    pub batch: u32,
    /// The amount asked of a host that was silent, while it is not known whether the host acted.
    pub doubt: Option<u64>,
}

/// The card of a message.
pub fn message_card(m: &Fields) -> Card
    ensures { result ≡ message_card m.now }
{
    Card { number: m.card }
}

impl Keyed for Purchase {
    type Key = Xid;

    ghost same = { λ p xid. of_xid xid p };

    fn has(&self, xid: &Xid) -> bool {
        same_xid(&self.xid, xid)
    }
}

impl Purchase {
    /// What stands for a purchase that the books do not have.
    pub(crate) const NONE: Purchase = Purchase {
        xid: [0; 20],
        course: 0,
        card: Card { number: 0 },
        authorised: 0,
        captured: 0,
        credited: 0,
        batch: 0,
        doubt: None,
    };

    /// A new purchase of an authorisation's XID, course and card, with nothing authorised yet.
    pub(crate) fn new(m: &Fields) -> Purchase
        ensures { result ≡ new_purchase m.now }
    {
        Purchase {
            xid: m.xid,
            course: m.course,
            card: message_card(m),
            ..Purchase::NONE
        }
    }

    /// The purchase once the host has replied to a put of the amount. Done makes it the authorised
    /// one, and done or refused ends a doubt; after silence the authorised amount stays, and the
    /// amount asked is noted.
    pub(crate) fn settled(self, reply: PutReply, amount: u64) -> Purchase
        ensures { result ≡ settled (on_put reply) amount self }
    {
        match reply {
            PutReply::Done => Purchase {
                authorised: amount,
                doubt: None,
                ..self
            },
            PutReply::Refused => Purchase {
                doubt: None,
                ..self
            },
            PutReply::Silent => Purchase {
                doubt: Some(amount),
                ..self
            },
        }
    }

    /// The purchase with so much captured, in this batch.
    pub(crate) fn with_captured(self, amount: u64, batch: u32) -> Purchase
        ensures { result ≡ with_captured amount batch self }
    {
        Purchase {
            captured: amount,
            batch,
            ..self
        }
    }

    /// The purchase with so much credited.
    pub(crate) fn with_credited(self, amount: u64) -> Purchase
        ensures { result ≡ with_credited amount self }
    {
        Purchase {
            credited: amount,
            ..self
        }
    }

    /// What of the capture is not credited yet.
    pub(crate) fn uncredited(&self) -> u64
        ensures { result ≡ uncredited self.now }
    {
        self.captured.saturating_sub(self.credited)
    }
}
