//! The gateway for a program that is not Rattle: opening, writing, and a whole run of records, each
//! under a name of C. A caller owes only what the types say: a slice is a pointer and a length, and
//! no two of them overlap.
#![tactic(auto)]

ghost use Rattle.std.specs.Prelude.{◌≡◌, ◌<◌, ◌≤◌, ◌*◌, length, IfOk};
ghost use Rattle.exports.specs.Exported.{fields_of, given};
ghost use Rattle.wire.specs.Buffer.{length_written, over_front};
ghost use Rattle.wire.specs.Opening.{opening_on};
ghost use Rattle.wire.specs.Strip.{strip_after};
ghost use Rattle.wire.specs.Writing.{writing_into};

use fields::record::Records;
use gateway::Gateway;
use host::{Card, Host};
use hosts::account_book::{Account, AccountBook, Hold};
use std::alloc::{AllocError, Global};
use wire::answer::FULL_LENGTH;
use wire::message::Fields;
use wire::{STRIP, open, write};

/// The fields of a message, as C lays them out.
#[repr(C)]
#[derive(Clone, Copy)]
pub struct MessageFields {
    pub kind: u8,
    pub request: u64,
    pub course: u32,
    pub xid: [u8; 20],
    pub card: u64,
    pub amount: u64,
    pub batch: u32,
}

/// An account of the account book.
#[repr(C)]
#[derive(Clone, Copy)]
pub struct AccountRow {
    pub card: u64,
    pub balance: u64,
}

/// A hold of the account book; one of amount 0 is free.
#[repr(C)]
#[derive(Clone, Copy)]
pub struct HoldRow {
    pub card: u64,
    pub reference: u64,
    pub amount: u64,
}

fn to_c(m: &Fields) -> MessageFields
    ensures { fields_of result ≡ m.now }
{
    MessageFields {
        kind: m.kind,
        request: m.request,
        course: m.course,
        xid: m.xid,
        card: m.card,
        amount: m.amount,
        batch: m.batch,
    }
}

fn from_c(m: &MessageFields) -> Fields
    ensures { result ≡ fields_of m.now }
{
    Fields {
        kind: m.kind,
        request: m.request,
        course: m.course,
        xid: m.xid,
        card: m.card,
        amount: m.amount,
        batch: m.batch,
    }
}

/// Opens a message: 0 and its fields, or the number of the refusal and the fields left as they
/// were.
#[unsafe(no_mangle)]
pub extern "C" fn gateway_open(message: &[u8], strip: &mut [u8], fields: &mut MessageFields) -> u8
    ensures value { given result (fields_of fields.new)
        ≡ opening_on (length strip.old) message.now }
    ensures kept { 0 < result → fields.new ≡ fields.old }
    ensures after { strip.new ≡ strip_after strip.old }
{
    match open(message, strip) {
        Ok(opened) => {
            *fields = to_c(&opened.fields());
            0
        }
        Err(refusal) => u8::from(refusal),
    }
}

/// Writes a message into the front of a buffer: 0 and its length, or the number of the refusal and
/// the length left as it was.
#[unsafe(no_mangle)]
pub extern "C" fn gateway_write(
    fields: &MessageFields,
    buffer: &mut [u8],
    written: &mut usize,
) -> u8
    ensures value { given result written.new
        ≡ length_written (writing_into (length buffer.old) (fields_of fields.now)) }
    ensures kept { 0 < result → written.new ≡ written.old }
    ensures after { buffer.new
        ≡ over_front (writing_into (length buffer.old) (fields_of fields.now)) buffer.old }
{
    match write(&from_c(fields), buffer) {
        Ok(length) => {
            *written = length;
            0
        }
        Err(refusal) => u8::from(refusal),
    }
}

/// Handles each whole record while there is room for its answer; returns how many.
fn handle_all<H: Host>(gateway: &mut Gateway<H>, records: &[u8], answers: &mut [u8]) -> usize
    ensures { result * 24 ≤ length answers.old }
{
    let mut strip = [0u8; STRIP];
    let mut handled = 0usize;
    for (record, answer) in Records::new(records).zip(answers.chunks_exact_mut(FULL_LENGTH)) {
        if let Ok(message) = record {
            let _ = gateway.handle(message, &mut strip, answer);
            handled = handled.saturating_add(1);
        }
    }
    handled
}

// The accounts that stand in the rows of C.
fn accounts_of(alloc: Global, rows: &[AccountRow]) -> Result<Vec<Account>, AllocError> {
    let mut accounts = Vec::new(alloc);
    for row in rows {
        accounts.push(Account {
            card: Card { number: row.card },
            balance: row.balance,
        })?;
    }
    Ok(accounts)
}

// Copies the holds back into the rows of C.
fn give_back(holds: &[Hold], rows: &mut [HoldRow]) {
    for (row, hold) in rows.iter_mut().zip(holds) {
        *row = HoldRow {
            card: hold.pair.card.number,
            reference: hold.pair.reference,
            amount: hold.amount,
        };
    }
}

/// The rows that cross are copied into the book's own, and those that it leaves are copied back.
fn run(
    alloc: Global,
    accounts: &[AccountRow],
    holds: &mut [HoldRow],
    records: &[u8],
    answers: &mut [u8],
) -> Result<usize, AllocError>
    ensures { IfOk result (λ handled. handled * 24 ≤ length answers.old) }
{
    let known = accounts_of(alloc, accounts)?;
    let mut rows = Vec::from_elem(alloc, Hold::FREE, holds.len())?;
    let book = AccountBook::new(known.as_slice(), rows.as_mut_slice());
    let Ok(mut gateway) = Gateway::new(alloc, book) else {
        return Err(AllocError);
    };
    let handled = handle_all(&mut gateway, records, answers);
    drop(gateway);
    give_back(rows.as_slice(), holds);
    Ok(handled)
}

/// Handles the records over new books and an account book with these accounts and so many rows for
/// holds, and returns how many were handled; without memory none is. Each answer takes 24 bytes,
/// and the holds are given back as they then are.
#[unsafe(no_mangle)]
pub extern "C" fn gateway_run(
    alloc: Global,
    accounts: &[AccountRow],
    holds: &mut [HoldRow],
    records: &[u8],
    answers: &mut [u8],
) -> usize
    ensures { result * 24 ≤ length answers.old }
{
    run(alloc, accounts, holds, records, answers).unwrap_or(0)
}
