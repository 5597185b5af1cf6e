//! Writing: from the fields of a message to its bytes, or to the first check that fails.
ghost use Rattle.std.specs.Prelude.{◌≡◌, length, replicate, if◌then◌else◌, Some, None, IfOk, IfErr, OnOk};
ghost use Rattle.std.specs.Int.Digits.{digits_of};
ghost use Rattle.wire.specs.Buffer.{over_front, length_written, numbered};
ghost use Rattle.wire.specs.Card.{is_card, packed};
ghost use Rattle.wire.specs.Checks.{first_failing};
ghost use Rattle.fields.specs.Field.{stands};
ghost use Rattle.fields.specs.Kind.{kind_number, map_of};
ghost use Rattle.fields.specs.Refusal.{refusal_number};
ghost use Rattle.wire.specs.RoundTrip.{RoundTrip, WritingInverts};
ghost use Rattle.wire.specs.Writing.{writing_checks, parts_of, writing_into};

use crate::card;
use crate::lay::lay;
use crate::message::Fields;
use crate::parts::Parts;
use fields::field::Field;
use fields::kind::Kind;
use fields::refusal::Refusal;

/// The packed card: zeros where the kind has none, nothing where the number is no card's.
fn card_bytes(kind: Kind, number: u64) -> Option<[u8; 10]>
    ensures { result
        ≡ (if stands (map_of (kind_number kind)) 4
        then (if is_card (digits_of 10 number) then Some (packed number) else None)
        else Some (replicate 10 0)) }
{
    if kind.has(Field::Card) {
        card::pack(number)
    } else {
        Some([0; 10])
    }
}

fn amount_of(kind: Kind, amount: u64) -> u64
    ensures { result ≡ (if stands (map_of (kind_number kind)) 5 then amount else 0) }
{
    if kind.has(Field::Amount) { amount } else { 0 }
}

/// The checks of the content, and what is to be laid out.
fn checked(fields: &Fields) -> Result<(Kind, Parts), Refusal>
    ensures kind { IfOk result (λ found. kind_number found.0 ≡ fields.now.kind) }
    ensures parts { IfOk result (λ found. found.1 ≡ parts_of fields.now) }
    ensures passed { OnOk result (first_failing (writing_checks fields.now) ≡ None) }
    ensures refused { IfErr result
        (λ e. first_failing (writing_checks fields.now) ≡ Some (refusal_number e)) }
{
    let kind = Kind::try_from(fields.kind)?;
    let card = card_bytes(kind, fields.card).ok_or(Refusal::BadCard)?;
    if !kind.allows(amount_of(kind, fields.amount)) {
        return Err(Refusal::AmountNotAllowed);
    }
    // The parts have the card packed, and the code 0.
    let parts = Parts {
        kind: fields.kind,
        request: fields.request,
        course: fields.course,
        xid: fields.xid,
        card,
        amount: fields.amount,
        batch: fields.batch,
        code: 0,
    };
    Ok((kind, parts))
}

/// Writes a message into the front of a buffer and answers its length; the bytes past it stay.
/// Refused, in this order, are a kind that is none of the nine (`UnknownKind`), a card number that
/// is no card's (`BadCard`), an amount that the kind doesn't allow (`AmountNotAllowed`), and a
/// buffer shorter than the message (`ShortBuffer`). A refusal leaves the whole buffer as it was.
#[inline(always)]
pub fn write(fields: &Fields, buffer: &mut [u8]) -> Result<usize, Refusal>
    ensures value { numbered result ≡ length_written (writing_into (length buffer.old) fields.now) }
    ensures after { buffer.new
        ≡ over_front (writing_into (length buffer.old) fields.now) buffer.old }
    ensures inverse { WritingInverts fields.now buffer.old buffer.new (numbered result) }
    ensures round_trip { RoundTrip }
{
    let (kind, parts) = checked(fields)?;
    lay(kind.map(), &parts, buffer)
}
