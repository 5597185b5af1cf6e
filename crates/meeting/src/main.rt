//! A meeting: reads records from standard input, each a length byte and a message, handles each
//! message over an account book, and prints a line for each: the code and the amount, or `-` in the
//! amount's place where the answer is short.
#![tactic(auto)]

use anyhow::{Context, anyhow};
use console::arguments;
use console::stream::{LONGEST, holds_record, read_record};
use gateway::Gateway;
use host::{Card, Host};
use hosts::account_book::{Account, AccountBook, Hold};
use std::io;
use std::io::{BufReader, BufWriter, Read, Write};
use std::process::ExitCode;
use wire::STRIP;
use wire::answer::FULL_LENGTH;

const HELP: &str = "\
usage: meeting < RECORDS
Reads records from standard input: a length byte and a message each. Prints a line for each record
before it waits for more: the code and the amount in pence that its message is answered, `-` for the
amount of a message that cannot be opened, and `cut` for a last record that is not whole.
The bank is an account book: the card that ends in 1111, a balance of 5000 pence, four hold rows.
";

const ACCOUNT: Account = Account {
    card: Card {
        number: 4_111_111_111_111_111,
    },
    balance: 5_000,
};

const HOLDS: usize = 4;

// A front end lends the strip and the answer buffer.
fn handle<H: Host, W: Write>(
    out: &mut W,
    gateway: &mut Gateway<H>,
    message: &[u8],
) -> io::Result<()> {
    let mut strip = [0u8; STRIP];
    let mut answer = [0u8; FULL_LENGTH];
    let handled = gateway.handle(message, &mut strip, &mut answer);
    writeln!(out, "{handled}")
}

// What is answered is written out before the program waits for more records.
fn run<H: Host, R: Read, W: Write + Drop>(
    gateway: &mut Gateway<H>,
    reader: &mut BufReader<R>,
    out: &mut BufWriter<W>,
) -> anyhow::Result<()> {
    let mut buffer = [0; LONGEST];
    for _ in 0..u64::MAX {
        if !holds_record(reader.buffer()) {
            out.flush()?;
        }
        match read_record(reader, &mut buffer).context("reading the records")? {
            None => break,
            Some(Ok(message)) => handle(out, gateway, message)?,
            Some(Err(cut)) => writeln!(out, "{cut}")?,
        }
    }
    out.flush()?;
    Ok(())
}

fn main(rt: HostRuntime) -> anyhow::Result<ExitCode> {
    if let Some(status) = arguments::answer(&rt, HELP)? {
        return Ok(status);
    }
    let mut reader = BufReader::new(rt.alloc(), rt.reader())?;
    let mut out = BufWriter::new(rt.alloc(), io::writer(&rt))?;
    let accounts = [ACCOUNT];
    let mut holds = [Hold::FREE; HOLDS];
    let book = AccountBook::new(&accounts, &mut holds);
    let Ok(mut gateway) = Gateway::new(rt.alloc(), book) else {
        return Err(anyhow!("no memory for the books"));
    };
    run(&mut gateway, &mut reader, &mut out)?;
    Ok(ExitCode::SUCCESS)
}
