//! The edges of the rules: for each a few messages, composed by the writer, and what each was
//! answered.
#![tactic(auto)]

ghost use Rattle.std.specs.Prelude.{◌+◌, ◌≤◌, length};
ghost use Rattle.std.specs.Iterator.{IsFinite};
ghost use Rattle.stand_in.specs.Sent.{StandInSends};

use anyhow::{Context, anyhow};
use console::arguments;
use fields::kind::Kind;
use gateway::{Gateway, Handled};
use host::{Card, Host, SendsOn};
use hosts::account_book::{Account, AccountBook, Hold};
use hosts::voucher_drawer::VoucherDrawer;
use layers::bad_line::{BadLine, LOSES_ANSWER, LOSES_CALL};
use layers::range_split::RangeSplit;
use stand_in::StandIn;
use std::process::ExitCode;
use wire::answer::FULL_LENGTH;
use wire::message::{Fields, Xid};
use wire::{STRIP, write};

const HELP: &str = "\
usage: edges
Reads nothing. Sends messages at the edges of the rules: bad lengths, cards and amounts, one
purchase, answer and batch more than there is room for, a put or an answer that is lost, and
sending on from a stand-in that is under a line and a split.
Prints for each what it was answered: the code, and the amount in pence.
";

const CARD: u64 = 4_111_111_111_111_111;

const ACCOUNTS: [Account; 1] = [Account {
    card: Card { number: CARD },
    balance: 100_000,
}];

// As many rows as there can be purchases.
const HOLDS: usize = 64;

// The floor of a stand-in.
const FLOOR: u64 = 1_000;

const COURSE: u32 = 9;

// The longest message, and room for a byte more.
const AUTHORISATION: usize = 53;

const LONGER: usize = AUTHORISATION + 1;

// Where an authorisation has its card, and its amount.
const CARD_AT: usize = 35;

const AMOUNT_AT: usize = 45;

// Twelve digits, and fill after them.
const TWELVE_DIGITS: [u8; 10] = [0x41, 0x11, 0x11, 0x11, 0x11, 0x11, 0xFF, 0xFF, 0xFF, 0xFF];

const TOO_MUCH: u64 = 100_000_000;

fn xid(number: u8) -> Xid {
    [number; 20]
}

// A message with no field but the kind, the request number and the course.
fn bare(kind: Kind, request: u64) -> Fields {
    Fields {
        kind: kind.into(),
        request,
        course: COURSE,
        xid: xid(0),
        card: 0,
        amount: 0,
        batch: 0,
    }
}

fn authorisation(request: u64, name: u8, amount: u64) -> Fields {
    Fields {
        xid: xid(name),
        card: CARD,
        amount,
        ..bare(Kind::AuthReq, request)
    }
}

fn reversal(request: u64, name: u8, amount: u64) -> Fields {
    Fields {
        xid: xid(name),
        amount,
        ..bare(Kind::AuthRevReq, request)
    }
}

fn batch_open(request: u64, batch: u32) -> Fields {
    Fields {
        batch,
        ..bare(Kind::BatchOpen, request)
    }
}

fn inquiry(request: u64, name: u8) -> Fields {
    Fields {
        xid: xid(name),
        ..bare(Kind::Inquiry, request)
    }
}

// Handles the message with buffers of its own, and hands on what was answered.
fn handle<H: Host>(gateway: &mut Gateway<H>, message: &[u8]) -> Handled {
    let mut strip = [0u8; STRIP];
    let mut answer = [0u8; FULL_LENGTH];
    gateway.handle(message, &mut strip, &mut answer)
}

// The bytes that the message is written as, at the front of the buffer.
fn written<'b>(fields: &Fields, buffer: &'b mut [u8]) -> anyhow::Result<&'b [u8]> {
    let length = write(fields, buffer).context("the writer refused a message")?;
    buffer
        .get(..length)
        .context("a message is longer than its buffer")
}

// Writes the message and handles its bytes. What the writer refuses is never sent.
fn send<H: Host>(gateway: &mut Gateway<H>, fields: &Fields) -> anyhow::Result<Handled> {
    let mut buffer = [0u8; AUTHORISATION];
    Ok(handle(gateway, written(fields, &mut buffer)?))
}

// A gateway with empty books, over a line with these marks and a book with nothing held in these
// rows.
fn new_gateway<'h>(
    rt: &HostRuntime,
    holds: &'h mut [Hold],
    marks: &[u8],
) -> anyhow::Result<Gateway<BadLine<AccountBook<'h>>>> {
    let line = BadLine::new(AccountBook::new(&ACCOUNTS, holds), marks);
    let Ok(gateway) = Gateway::new(rt.alloc(), line) else {
        return Err(anyhow!("no memory for the books"));
    };
    Ok(gateway)
}

// The message with these bytes in the place of its own.
fn spoiled(mut message: [u8; LONGER], at: usize, bytes: &[u8]) -> [u8; LONGER]
    requires { at + length bytes.now ≤ LONGER }
{
    message[at..at + bytes.len()].copy_from_slice(bytes);
    message
}

// Authorisations that cannot be opened, handled one after the other.
fn malformed<H: Host>(rt: &impl Print, gateway: &mut Gateway<H>) -> anyhow::Result<()> {
    let mut message = [0u8; LONGER];
    let _ = write(&authorisation(1, 1, 3_000), &mut message);
    let twelve = spoiled(message, CARD_AT, &TWELVE_DIGITS);
    let much = spoiled(message, AMOUNT_AT, &TOO_MUCH.to_be_bytes());
    for (name, bytes) in [
        (
            "an authorisation in 52 bytes",
            &message[0..AUTHORISATION - 1],
        ),
        ("an authorisation in 54 bytes", &message[0..LONGER]),
        ("a card of 12 digits", &twelve[0..AUTHORISATION]),
        ("an amount of 100,000,000", &much[0..AUTHORISATION]),
    ] {
        let handled = handle(gateway, bytes);
        println!(rt; "{name}: {handled}")?;
    }
    Ok(())
}

// Sends messages in their order, and prints what the shown requests were answered.
fn send_all<H: Host, I: Iterator<Item = Fields> + Drop>(
    rt: &impl Print,
    gateway: &mut Gateway<H>,
    name: &str,
    shown: &[u64],
    messages: I,
) -> anyhow::Result<()>
    requires can { I.can_next messages }
    requires ends { IsFinite (I.remaining messages) }
{
    for message in messages {
        let handled = send(gateway, &message)?;
        let number = message.request;
        if shown.contains(&number) {
            println!(rt; "{name} {number}: {handled}")?;
        }
    }
    Ok(())
}

// One authorisation more than there are rows for purchases.
fn many_purchases<H: Host>(rt: &impl Print, gateway: &mut Gateway<H>) -> anyhow::Result<()> {
    let messages = (1..=65u8).map(|name| authorisation(u64::from(name), name, 100));
    send_all(rt, gateway, "XID", &[64, 65], messages)
}

// One message more than there are rows for answers: openings of a batch that is open already.
fn many_answers<H: Host>(rt: &impl Print, gateway: &mut Gateway<H>) -> anyhow::Result<()> {
    let messages = (1..=257u64).map(|request| batch_open(request, 1));
    send_all(rt, gateway, "request", &[1, 256, 257], messages)
}

// One batch more than there are rows for batches.
fn many_batches<H: Host>(rt: &impl Print, gateway: &mut Gateway<H>) -> anyhow::Result<()> {
    let messages = (1..=9u32).map(|batch| batch_open(u64::from(batch), batch));
    send_all(rt, gateway, "batch", &[8, 9], messages)
}

// For purchases, answers and batches, one message more than there are rows.
fn one_too_many(rt: &HostRuntime, holds: &mut [Hold]) -> anyhow::Result<()> {
    many_purchases(rt, &mut new_gateway(rt, holds, &[])?)?;
    many_answers(rt, &mut new_gateway(rt, holds, &[])?)?;
    many_batches(rt, &mut new_gateway(rt, holds, &[])?)
}

// An authorisation whose put is lost, what is held then, a reversal, the authorisation again, and
// what is held then.
fn one_lost_put<H: Host>(
    rt: &impl Print,
    gateway: &mut Gateway<H>,
    what: &str,
) -> anyhow::Result<()> {
    println!(rt; "{what}:")?;
    for (name, message) in [
        ("authorisation", authorisation(1, 1, 3_000)),
        ("inquiry", inquiry(2, 1)),
        ("reversal", reversal(3, 1, 2_000)),
        ("the authorisation again", authorisation(1, 1, 3_000)),
        ("inquiry", inquiry(4, 1)),
    ] {
        let handled = send(gateway, &message)?;
        println!(rt; "{name}: {handled}")?;
    }
    Ok(())
}

// A put of which the line loses the answer, and one that it loses itself.
fn lost_puts(rt: &HostRuntime, holds: &mut [Hold]) -> anyhow::Result<()> {
    one_lost_put(
        rt,
        &mut new_gateway(rt, holds, &[LOSES_ANSWER])?,
        "the answer to the first put is lost",
    )?;
    one_lost_put(
        rt,
        &mut new_gateway(rt, holds, &[LOSES_CALL])?,
        "the first put itself is lost",
    )
}

// A gateway whose host is a split, with a line on its left, and a stand-in under that.
type Branched<H, R> = Gateway<RangeSplit<BadLine<StandIn<H>>, R>>;

// Sends on, which reaches the stand-in through both.
fn send_on_below<H: SendsOn, R: SendsOn>(gateway: &mut Branched<H, R>)
    ensures { StandInSends H.Host.put_step H.SendsOn.send_step
        gateway.old.host.left.below gateway.new.host.left.below }
{
    gateway.send_on();
}

fn show_standing<H, R>(rt: &impl Print, gateway: &Branched<H, R>) -> anyhow::Result<()> {
    let rows = gateway.host().left().below().rows();
    let standing = rows.iter().filter(|row| row.stands()).count();
    println!(rt; "rows that stand: {standing}")?;
    Ok(())
}

// An authorisation within the floor of a stand-in whose own line loses the put, and sending on.
fn one_sent_on(rt: &HostRuntime, holds: &mut [Hold]) -> anyhow::Result<()> {
    let silent = BadLine::new(AccountBook::new(&ACCOUNTS, holds), &[LOSES_CALL]);
    let line = BadLine::new(StandIn::new(silent, FLOOR), &[]);
    let split = RangeSplit::new(line, VoucherDrawer::new(&mut []), 0, u64::MAX);
    let Ok(mut gateway) = Gateway::new(rt.alloc(), split) else {
        return Err(anyhow!("no memory for the books"));
    };
    println!(rt; "a stand-in under a line and a split:")?;
    let authorised = send(&mut gateway, &authorisation(1, 1, FLOOR))?;
    println!(rt; "authorisation: {authorised}")?;
    show_standing(rt, &gateway)?;
    send_on_below(&mut gateway);
    println!(rt; "sent on")?;
    show_standing(rt, &gateway)?;
    let asked = send(&mut gateway, &inquiry(2, 1))?;
    println!(rt; "inquiry: {asked}")?;
    Ok(())
}

fn run(rt: &HostRuntime) -> anyhow::Result<()> {
    let mut holds = [Hold::FREE; HOLDS];
    malformed(rt, &mut new_gateway(rt, &mut holds, &[])?)?;
    one_too_many(rt, &mut holds)?;
    lost_puts(rt, &mut holds)?;
    one_sent_on(rt, &mut holds)
}

fn main(rt: HostRuntime) -> anyhow::Result<ExitCode> {
    if let Some(status) = arguments::answer(&rt, HELP)? {
        return Ok(status);
    }
    run(&rt)?;
    Ok(ExitCode::SUCCESS)
}
