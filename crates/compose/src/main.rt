//! Composes a record file: reads the statements of a rehearsal from standard input, and writes each
//! message as a record, a length byte and its bytes, to standard output. What is no statement or
//! cannot be written is told on standard error.
#![tactic(auto)]

use anyhow::Context;
use console::arguments;
use rehearsal::lines::Lines;
use rehearsal::obstacle::Obstacle;
use rehearsal::sender::{LONGEST, Sender};
use rehearsal::statement::Statement;
use rehearsal::words::words_of;
use std::alloc::Global;
use std::io;
use std::io::{BufReader, BufWriter, Read, Write};
use std::process::ExitCode;

const HELP: &str = "\
usage: compose < REHEARSAL > RECORDS
Reads a rehearsal from standard input, a statement to a line, and writes its messages as records to
standard output: a length byte and a message each. The lines about the bank, `send on` and what is
expected are passed over. A line that is no statement, or a message that the writer refuses, is told
on standard error by its number and the reason, and not written; the status at the end is then 1.
";

// A message as a record.
fn write_record<W: Write>(out: &mut W, message: &[u8]) -> io::Result<()> {
    // a message has at most so many bytes as a length byte says
    let length = u8::try_from(message.len()).unwrap_or(u8::MAX);
    out.write_all(&[length])?;
    out.write_all(message)
}

// Writes the message of a line, if it has one, or says why it cannot be written.
fn compose<W: Write>(
    alloc: Global,
    line: &str,
    sender: &mut Sender,
    out: &mut W,
) -> anyhow::Result<Option<Obstacle>> {
    let words = words_of(alloc, line)?;
    if words.is_empty() {
        return Ok(None);
    }
    let statement = match Statement::read(&words) {
        Ok(statement) => statement,
        Err(fault) => return Ok(Some(Obstacle::NoStatement(fault))),
    };
    if matches!(statement, Statement::Fresh) {
        *sender = Sender::new(alloc);
    }
    match sender.message(&statement, &mut [0; LONGEST]) {
        Ok(Some(message)) => {
            write_record(out, message)?;
            Ok(None)
        }
        Ok(None) => Ok(None),
        Err(obstacle) => Ok(Some(obstacle)),
    }
}

// Composes each line, and says whether every one was carried out.
fn run<R: Read, W: Write + Drop>(
    rt: &impl Eprint,
    alloc: Global,
    lines: &mut Lines<R>,
    out: &mut BufWriter<W>,
) -> anyhow::Result<bool> {
    let mut sender = Sender::new(alloc);
    let mut is_whole = true;
    for _ in 0..u64::MAX {
        if !lines.advance_at_once()? {
            out.flush()?;
            if !lines.advance().context("reading the rehearsal")? {
                break;
            }
        }
        let obstacle = match lines.text() {
            Some(line) => compose(alloc, line, &mut sender, out)?,
            None => Some(Obstacle::NotText),
        };
        if let Some(obstacle) = obstacle {
            is_whole = false;
            eprintln!(rt; "line {}: {obstacle}", lines.number())?;
        }
    }
    out.flush()?;
    Ok(is_whole)
}

fn main(rt: HostRuntime) -> anyhow::Result<ExitCode> {
    if let Some(status) = arguments::answer(&rt, HELP)? {
        return Ok(status);
    }
    let mut lines = Lines::new(rt.alloc(), BufReader::new(rt.alloc(), rt.reader())?);
    let mut out = BufWriter::new(rt.alloc(), io::writer(&rt))?;
    if run(&rt, rt.alloc(), &mut lines, &mut out)? {
        Ok(ExitCode::SUCCESS)
    } else {
        Ok(ExitCode::FAILURE)
    }
}
