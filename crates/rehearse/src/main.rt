//! A rehearsal: reads statements from standard input, a line each, and shows what each message is
//! answered, what the bank holds and what the books show.
#![tactic(auto)]

mod bank;
mod case;
mod line;
mod report;
mod tally;

use crate::tally::Tally;
use console::arguments;
use rehearsal::lines::Lines;
use std::alloc::Global;
use std::io;
use std::io::{BufReader, BufWriter, Read, Write};
use std::process::ExitCode;

const HELP: &str = "\
usage: rehearse < REHEARSAL
Reads a rehearsal from standard input, a statement to a line: first the bank, then messages.
Prints for each message its answer, what the bank holds and what the books show, and for `send on`
the rows that stay, before it waits for more. What is no statement is told by its line's number.
Ends with status 1 where an answer is not the one that `expect` says, or a line is not carried out.
";

// How many bytes are written at once where the output is not waited for.
const BUFFER: usize = 65_536;

// Goes through the cases of a rehearsal, each over a bank and a gateway of its own.
fn run<R: Read, W: Write + Drop>(
    alloc: Global,
    lines: &mut Lines<R>,
    out: &mut BufWriter<W>,
) -> anyhow::Result<Tally> {
    let mut tally = Tally::new();
    for _ in 0..u64::MAX {
        if !case::rehearse(alloc, lines, out, &mut tally)? {
            break;
        }
    }
    writeln!(out, "{tally}")?;
    out.flush()?;
    Ok(tally)
}

fn main(rt: HostRuntime) -> anyhow::Result<ExitCode> {
    if let Some(status) = arguments::answer(&rt, HELP)? {
        return Ok(status);
    }
    let mut lines = Lines::new(rt.alloc(), BufReader::new(rt.alloc(), rt.reader())?);
    let mut out = BufWriter::with_capacity(rt.alloc(), BUFFER, io::writer(&rt))?;
    let tally = run(rt.alloc(), &mut lines, &mut out)?;
    Ok(tally.status())
}
