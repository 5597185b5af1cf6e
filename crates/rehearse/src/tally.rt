//! What a rehearsal came to: its lines, its messages by code, and what was expected.
use std::fmt;
use std::process::ExitCode;

/// How many codes there are, success among them.
const CODES: usize = 26;

/// The counts of a rehearsal. Each stays at its largest where it would pass it.
#[derive(Clone, Copy)]
pub struct Tally {
    /// The lines that were read.
    pub lines: u64,
    /// The lines that were no statement, or that could not be carried out.
    pub faults: u64,
    /// How often each code was answered.
    answers: [u64; CODES],
    /// The expectations that were met, and those that were missed.
    met: u64,
    missed: u64,
}

impl Tally {
    pub fn new() -> Tally {
        Tally {
            lines: 0,
            faults: 0,
            answers: [0; CODES],
            met: 0,
            missed: 0,
        }
    }

    /// Counts an answer of this code.
    pub fn count_answer(&mut self, code: u8) {
        if let Some(count) = self.answers.get_mut(usize::from(code)) {
            *count = count.saturating_add(1);
        }
    }

    /// Counts an expectation.
    pub fn count_expected(&mut self, is_met: bool) {
        if is_met {
            self.met = self.met.saturating_add(1);
        } else {
            self.missed = self.missed.saturating_add(1);
        }
    }

    /// Failure where an expectation was missed or a line could not be carried out.
    pub fn status(&self) -> ExitCode {
        if self.missed == 0 && self.faults == 0 {
            ExitCode::SUCCESS
        } else {
            ExitCode::FAILURE
        }
    }
}

// Writes each code that was answered, and how often.
fn write_answers<W: fmt::Write>(answers: &[u64; CODES], f: &mut fmt::Formatter<W>) -> fmt::Result {
    let mut before = ':';
    for (code, count) in answers.iter().enumerate() {
        if *count > 0 {
            write!(f, "{before} {code} ({count})")?;
            before = ',';
        }
    }
    Ok(())
}

impl fmt::Display for Tally {
    fn fmt<W: fmt::Write>(&self, f: &mut fmt::Formatter<W>) -> fmt::Result {
        let lines = self.lines;
        let faults = self.faults;
        write!(
            f,
            "{lines} lines, {faults} not carried out; answers by code"
        )?;
        write_answers(&self.answers, f)?;
        let met = self.met;
        let missed = self.missed;
        write!(f, "; expected {met} met, {missed} missed")
    }
}
