//! The checks from 9 on, by the table of specs/Checks.antt.
ghost use Rattle.std.specs.Prelude.{◌≡◌, map};
ghost use Rattle.fields.specs.Kind.{kind_number};
ghost use Rattle.rules.specs.Causes.{holds};
ghost use Rattle.rules.specs.Checks.{Numbered, among, book_checks, refusal, refuses};
ghost use Rattle.rules.specs.Table.{kinds_in, row_of};

use crate::batch::Batch;
use crate::facts::{ANSWERS, BATCHES, Facts, PURCHASES};
use crate::outcome::Outcome::{self, *};
use crate::purchase::{Purchase, message_card};
use fields::kind::Kind::{self, *};
use wire::message::Fields;

// Sets of kinds, by the bit of each kind's number.
const AUTH_REQ: u16 = 1 << AuthReq as u16;

const AUTH_REV_REQ: u16 = 1 << AuthRevReq as u16;

const CAP_REQ: u16 = 1 << CapReq as u16;

const CAP_REV_REQ: u16 = 1 << CapRevReq as u16;

const CRED_REQ: u16 = 1 << CredReq as u16;

const CRED_REV_REQ: u16 = 1 << CredRevReq as u16;

const BATCH_OPEN: u16 = 1 << BatchOpen as u16;

const BATCH_CLOSE: u16 = 1 << BatchClose as u16;

const INQUIRY: u16 = 1 << Inquiry as u16;

// The kinds that need a purchase authorised and not captured yet, and those that need it captured.
const BEFORE_CAPTURE: u16 = AUTH_REV_REQ | CAP_REQ;

const AFTER_CAPTURE: u16 = CAP_REV_REQ | CRED_REQ | CRED_REV_REQ;

// Those that move a purchase, those that need it known, and those that name one.
const MOVING: u16 = AUTH_REQ | BEFORE_CAPTURE | AFTER_CAPTURE;

const KNOWING: u16 = BEFORE_CAPTURE | AFTER_CAPTURE | INQUIRY;

const NAMING: u16 = AUTH_REQ | KNOWING;

// Those that need an open batch, and those whose answers are remembered.
const BOOKING: u16 = CAP_REQ | AFTER_CAPTURE | BATCH_CLOSE;

const REMEMBERED: u16 = MOVING | BATCH_OPEN | BATCH_CLOSE;

// The causes of the checks, in the order of the table.
#[derive(Clone, Copy)]
enum Cause {
    NoRowForAnswer,
    NoSuchPurchase,
    OtherCourse,
    OtherCard,
    HasDoubt,
    SomeAuthorised,
    NoRowForPurchase,
    NoneAuthorised,
    SomeCaptured,
    NoneCaptured,
    NotBelowAuthorised,
    AboveAuthorised,
    AboveUncredited,
    AboveCredited,
    NoSuchBatch,
    ClosedBatch,
    CreditedOrOpenElsewhere,
    BatchExists,
    NoRowForBatch,
}

impl Cause {
    // A purchase or a batch that is not there is read as a row of zeros.
    fn holds(self, f: &Facts, m: &Fields) -> bool
        ensures { result ≡ holds self f.now m.now }
    {
        let known = f.purchase.is_some();
        let p = f.purchase.as_ref().unwrap_or(&Purchase::NONE);
        let b = f.batch.as_ref().unwrap_or(&Batch::NONE);
        match self {
            Cause::NoRowForAnswer => f.answers >= ANSWERS,
            Cause::NoSuchPurchase => !known,
            Cause::OtherCourse => known && p.course != m.course,
            Cause::OtherCard => known && p.card != message_card(m),
            Cause::HasDoubt => p.doubt.is_some(),
            Cause::SomeAuthorised => p.authorised > 0,
            Cause::NoRowForPurchase => f.purchases >= PURCHASES && !known,
            Cause::NoneAuthorised => p.authorised == 0,
            Cause::SomeCaptured => p.captured > 0,
            Cause::NoneCaptured => p.captured == 0,
            Cause::NotBelowAuthorised => m.amount >= p.authorised,
            Cause::AboveAuthorised => m.amount > p.authorised,
            Cause::AboveUncredited => m.amount > p.uncredited(),
            Cause::AboveCredited => m.amount > p.credited,
            Cause::NoSuchBatch => f.batch.is_none(),
            Cause::ClosedBatch => b.closed,
            Cause::CreditedOrOpenElsewhere => {
                p.credited > 0 || (f.captured_in_open && p.batch != m.batch)
            }
            Cause::BatchExists => f.batch.is_some(),
            Cause::NoRowForBatch => f.batches >= BATCHES,
        }
    }
}

// A row of the table: a message of these kinds is refused with this outcome where the cause holds.
#[derive(Clone, Copy)]
struct Row(Outcome, u16, Cause);

impl Row {
    fn names(&self, kind: Kind) -> bool
        ensures { result ≡ among (kind_number kind) (kinds_in self.now.1) }
    {
        (self.1 >> u8::from(kind)) % 2 == 1
    }

    fn refuses(&self, kind: Kind, f: &Facts, m: &Fields) -> bool
        ensures { result ≡ refuses (kind_number kind) (row_of f.now m.now self.now) }
    {
        self.names(kind) && self.2.holds(f, m)
    }
}

// The table of specs/Checks.antt, row by row.
const CHECKS: [Row; 19] = [
    Row(MemoryFull, REMEMBERED, Cause::NoRowForAnswer),
    Row(UnknownXid, KNOWING, Cause::NoSuchPurchase),
    Row(PiAuthMismatch, NAMING, Cause::OtherCourse),
    Row(PiAuthMismatch, AUTH_REQ, Cause::OtherCard),
    Row(InDoubt, MOVING, Cause::HasDoubt),
    Row(PiPreviouslyUsed, AUTH_REQ, Cause::SomeAuthorised),
    Row(PurchasesFull, AUTH_REQ, Cause::NoRowForPurchase),
    Row(NothingAuthorised, BEFORE_CAPTURE, Cause::NoneAuthorised),
    Row(DuplicateRequest, BEFORE_CAPTURE, Cause::SomeCaptured),
    Row(NothingCaptured, AFTER_CAPTURE, Cause::NoneCaptured),
    Row(AmountOutOfBounds, AUTH_REV_REQ, Cause::NotBelowAuthorised),
    Row(AmountOutOfBounds, CAP_REQ, Cause::AboveAuthorised),
    Row(AmountOutOfBounds, CRED_REQ, Cause::AboveUncredited),
    Row(AmountOutOfBounds, CRED_REV_REQ, Cause::AboveCredited),
    Row(BatchUnknown, BOOKING, Cause::NoSuchBatch),
    Row(BatchClosed, BOOKING, Cause::ClosedBatch),
    Row(NotReversible, CAP_REV_REQ, Cause::CreditedOrOpenElsewhere),
    Row(BatchNumberUsed, BATCH_OPEN, Cause::BatchExists),
    Row(BatchesFull, BATCH_OPEN, Cause::NoRowForBatch),
];

// The outcome of the first row that refuses a message of this kind; no later row is looked at.
fn first_refusal(rows: &[Row], kind: Kind, f: &Facts, m: &Fields) -> Option<Outcome>
    ensures { result ≡ refusal (kind_number kind) (map (row_of f.now m.now) rows.now) }
{
    rows.iter()
        .find(|row| row.refuses(kind, f, m))
        .map(|row| row.0)
}

/// The first check from 9 on that refuses a message of this kind (docs/refusals.md, "The checks").
pub fn book_refusal(kind: Kind, f: &Facts, m: &Fields) -> Option<Outcome>
    ensures value { result ≡ refusal (kind_number kind) (book_checks f.now m.now) }
    ensures numbered { Numbered }
{
    first_refusal(&CHECKS, kind, f, m)
}
