//! Reads records from standard input, opens each message, writes it again, and prints a line for
//! each.
#![tactic(auto)]

use anyhow::Context;
use console::arguments;
use console::shown::{Hexadecimal, Masked};
use console::stream::{LONGEST, holds_record, read_record};
use fields::field::Field;
use fields::kind::Kind;
use fields::record::Cut;
use std::io::{BufReader, BufWriter, Read, Write};
use std::process::ExitCode;
use std::{fmt, io};
use wire::message::Fields;
use wire::{STRIP, open, write};

const HELP: &str = "\
usage: records < RECORDS
Reads records from standard input: a length byte and a message each. Prints a line for each record
before it waits for more: the fields of its message, or why it cannot be opened; a card is shown by
its last four digits. Each message is also written again from its fields, and compared.
The last line counts the messages that were opened and those that were refused.
";

// Pence, and the pounds that they come to.
#[derive(Clone, Copy)]
struct Money(u64);

impl fmt::Display for Money {
    fn fmt<W: fmt::Write>(&self, f: &mut fmt::Formatter<W>) -> fmt::Result {
        let pence = self.0;
        write!(f, "£{}.{:02} ({pence} pence)", pence / 100, pence % 100)
    }
}

// A message of this kind: only the fields that the kind has.
#[derive(Clone, Copy)]
struct Shown<'a>(Kind, &'a Fields);

impl fmt::Display for Shown<'_> {
    fn fmt<W: fmt::Write>(&self, f: &mut fmt::Formatter<W>) -> fmt::Result {
        let Shown(kind, fields) = self;
        write!(
            f,
            "{kind}, request {}, course {}",
            fields.request, fields.course
        )?;
        if kind.has(Field::Xid) {
            write!(f, ", XID {}", Hexadecimal(&fields.xid))?;
        }
        if kind.has(Field::Card) {
            write!(f, ", card {}", Masked(fields.card))?;
        }
        if kind.has(Field::Amount) {
            write!(f, ", amount {}", Money(fields.amount))?;
        }
        if kind.has(Field::Batch) {
            write!(f, ", batch {}", fields.batch)?;
        }
        write!(f, "; {} fields", kind.map().count())
    }
}

// What writing the fields again gives, beside the message that they are of.
fn written_again(fields: &Fields, message: &[u8]) -> &'static str {
    let mut buffer = [0u8; LONGEST];
    if write(fields, &mut buffer).is_ok_and(|length| buffer.get(..length) == Some(message)) {
        "the same bytes"
    } else {
        "OTHER BYTES"
    }
}

// How many messages were opened, and how many refused.
#[derive(Clone, Copy)]
struct Counts {
    opened: u64,
    refused: u64,
}

// Shows the record under its number, and counts its message.
fn show_record<W: Write>(
    out: &mut W,
    number: u64,
    record: Result<&[u8], Cut>,
    counts: &mut Counts,
) -> io::Result<()> {
    write!(out, "{number} ")?;
    let message = match record {
        Ok(message) => message,
        Err(cut) => return writeln!(out, "{cut}"),
    };
    let mut strip = [0u8; STRIP];
    match open(message, &mut strip) {
        Err(refusal) => {
            counts.refused = counts.refused.saturating_add(1);
            writeln!(out, "refused {}: {refusal}", u8::from(refusal))
        }
        Ok(opened) => {
            counts.opened = counts.opened.saturating_add(1);
            let fields = opened.fields();
            let shown = Shown(opened.kind(), &fields);
            let again = written_again(&fields, message);
            writeln!(out, "{shown}; written again, {again}")
        }
    }
}

// Shows each record, and at the end how many messages were opened and refused. What is shown is
// written out before the program waits for more records.
fn run<R: Read, W: Write + Drop>(
    reader: &mut BufReader<R>,
    out: &mut BufWriter<W>,
) -> anyhow::Result<()> {
    let mut buffer = [0; LONGEST];
    let mut counts = Counts {
        opened: 0,
        refused: 0,
    };
    for number in 1..u64::MAX {
        if !holds_record(reader.buffer()) {
            out.flush()?;
        }
        match read_record(reader, &mut buffer).context("reading the records")? {
            None => break,
            Some(record) => show_record(out, number, record, &mut counts)?,
        }
    }
    let Counts { opened, refused } = counts;
    writeln!(out, "opened {opened}, refused {refused}")?;
    out.flush()?;
    Ok(())
}

fn main(rt: HostRuntime) -> anyhow::Result<ExitCode> {
    if let Some(status) = arguments::answer(&rt, HELP)? {
        return Ok(status);
    }
    let mut reader = BufReader::new(rt.alloc(), rt.reader())?;
    let mut out = BufWriter::new(rt.alloc(), io::writer(&rt))?;
    run(&mut reader, &mut out)?;
    Ok(ExitCode::SUCCESS)
}
