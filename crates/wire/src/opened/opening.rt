//! Opening: from the bytes of a message to the message, or to the first check that fails.
ghost use Rattle.std.specs.Prelude.{◌≡◌, length, replicate, if◌then◌else◌, Some, None, IfOk};
ghost use Rattle.wire.specs.Answered.{answered};
ghost use Rattle.wire.specs.Card.{well_packed, card_number};
ghost use Rattle.fields.specs.Field.{stands};
ghost use Rattle.fields.specs.Kind.{kind_number, map_of};
ghost use Rattle.wire.specs.Opening.{fields_with, opening, opening_on};
ghost use Rattle.wire.specs.RoundTrip.{OpeningInverts};
ghost use Rattle.wire.specs.Strip.{strip_after};
ghost use Rattle.wire.specs.Writing.{bytes_for};

use super::Opened;
use crate::message::Fields;
use crate::parts::Parts;
use crate::reader;
use crate::strip::{self, STRIP, Strip};
use fields::field::Field;
use fields::kind::Kind;
use fields::refusal::Refusal;

/// The card's number: 0 where the kind has no card, nothing where the bytes hold none.
fn card_number(kind: Kind, bytes: &[u8; 10], digits: &mut [u8; STRIP]) -> Option<u64>
    ensures { result
        ≡ (if stands (map_of (kind_number kind)) 4
        then (if well_packed bytes.now then Some (card_number bytes.now) else None)
        else Some 0) }
{
    if kind.has(Field::Card) {
        strip::card(digits, bytes)
    } else {
        Some(0)
    }
}

/// The fields of a message, the card by this number.
fn fields_of(parts: &Parts, card: u64) -> Fields
    ensures { result ≡ fields_with parts.now card }
{
    Fields {
        kind: parts.kind,
        request: parts.request,
        course: parts.course,
        xid: parts.xid,
        card,
        amount: parts.amount,
        batch: parts.batch,
    }
}

fn examine(message: &[u8], digits: &mut [u8; STRIP]) -> Result<Opened, Refusal>
    ensures { answered result ≡ opening message.now }
{
    let (kind, parts) = reader::parts_of(message)?;
    let card = card_number(kind, &parts.card, digits).ok_or(Refusal::BadCard)?;
    if !kind.allows(parts.amount) {
        return Err(Refusal::AmountNotAllowed);
    }
    Ok(Opened {
        fields: fields_of(&parts, card),
    })
}

/// Opens a message. The digits of its card stand on the strip only meanwhile: on every way out the
/// guard blanks them.
#[inline(always)]
fn open_on(message: &[u8], digits: &mut [u8; STRIP]) -> Result<Opened, Refusal>
    ensures value { answered result ≡ opening message.now }
    ensures after { digits.new ≡ replicate 19 0 }
{
    let guard = Strip { digits };
    examine(message, guard.digits)
}

/// Opens a message. The digits of its card are spread on the strip meanwhile; afterwards the
/// strip's first 19 bytes are zeros, whatever is answered, and the rest is as it was. A strip under
/// 19 bytes is refused with `Refusal::ShortBuffer` and left as it was. Every other refusal is the
/// first check of the message that fails; the message is only read.
#[inline(always)]
pub fn open(message: &[u8], strip: &mut [u8]) -> Result<Opened, Refusal>
    ensures value { answered result ≡ opening_on (length strip.old) message.now }
    ensures after { strip.new ≡ strip_after strip.old }
    ensures inverse { OpeningInverts (length strip.old) message.now (answered result) }
    ensures own_bytes { IfOk result (λ opened. bytes_for opened.fields ≡ message.now) }
{
    match strip.first_chunk_mut() {
        Some(digits) => open_on(message, digits),
        None => Err(Refusal::ShortBuffer),
    }
}
