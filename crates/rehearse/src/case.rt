//! A case of a rehearsal: a bank that is described, and the messages over it.
use crate::bank::{Setup, Shown};
use crate::line::Line;
use crate::report::{Answered, Found, Numbers, count_standing, show_rows};
use crate::tally::Tally;
use anyhow::{Context, anyhow};
use gateway::Gateway;
use host::{Amount, Host};
use hosts::account_book::AccountBook;
use hosts::voucher_drawer::VoucherDrawer;
use layers::bad_line::BadLine;
use layers::range_split::RangeSplit;
use rehearsal::bank::Side;
use rehearsal::lines::Lines;
use rehearsal::obstacle::Obstacle;
use rehearsal::sender::{LONGEST, Sender};
use rehearsal::statement::Statement;
use rehearsal::words::words_of;
use stand_in::StandIn;
use std::alloc::{AllocError, Global};
use std::io;
use std::io::{BufWriter, Read, Write};
use wire::opened::Opened;
use wire::{STRIP, open};

// What a line leads to.
#[derive(Clone, Copy)]
enum Step {
    // the next line
    Done,
    // the end of the stage
    Over,
}

// What carries out the statements of a case: the description of its bank, and then its messages.
trait Stage {
    // Carries a statement out, shows at the desk what comes of it, and says what it leads to.
    fn carry_out<W: Write + Drop>(
        &mut self,
        desk: &mut Desk<'_, W>,
        statement: &Statement<'_>,
    ) -> anyhow::Result<Step>;
}

fn show_title<W: Write>(out: &mut W, title: &[&str]) -> io::Result<()> {
    write!(out, "case")?;
    for word in title {
        write!(out, " {word}")?;
    }
    writeln!(out)
}

// Where the rehearsal is shown, and what it comes to.
#[derive(Drop)]
struct Desk<'o, W: Write + Drop> {
    out: &'o mut BufWriter<W>,
    tally: &'o mut Tally,
    // the number of the line
    number: u64,
    // what the last message was answered
    answered: Option<Numbers>,
    line: Line,
}

impl<W: Write + Drop> Desk<'_, W> {
    // Goes on to the next line, once what was shown is written out where the line has to be waited
    // for.
    fn advance<R: Read>(&mut self, lines: &mut Lines<R>) -> anyhow::Result<bool> {
        if !lines.advance_at_once()? {
            self.out.flush()?;
            if !lines.advance().context("reading the rehearsal")? {
                return Ok(false);
            }
        }
        self.number = lines.number();
        self.tally.lines = self.number;
        Ok(true)
    }

    // Tells why the line is not carried out, and is done with it; there is then no answer to be
    // expected.
    fn tell(&mut self, obstacle: &Obstacle) -> io::Result<Step> {
        self.tally.faults = self.tally.faults.saturating_add(1);
        self.answered = None;
        writeln!(self.out, "line {}: {obstacle}", self.number)?;
        Ok(Step::Done)
    }

    // Counts a message's answer, to which the next expectation is held, and adds it to the line.
    fn answer(&mut self, answered: &Answered) -> Result<(), AllocError> {
        let numbers = answered.numbers();
        self.answered = Some(numbers);
        self.tally.count_answer(numbers.0);
        answered.show(&mut self.line)
    }

    // Counts an expectation, and tells one that is missed.
    fn compare(&mut self, expected: Numbers, answered: Numbers) -> io::Result<()> {
        let is_met = answered == expected;
        self.tally.count_expected(is_met);
        if is_met {
            return Ok(());
        }
        writeln!(
            self.out,
            "line {}: MISSED: expected {expected}, answered {answered}",
            self.number
        )
    }

    // What is neither about the bank nor a message.
    fn note(&mut self, statement: &Statement<'_>) -> io::Result<Step> {
        match *statement {
            Statement::Case(title) => show_title(self.out, title)?,
            Statement::Expect { code, amount } => match self.answered {
                Some(answered) => self.compare(Numbers(code, amount), answered)?,
                None => return self.tell(&Obstacle::NothingSent),
            },
            Statement::Fresh => return Ok(Step::Over),
            Statement::Bank(_) => return self.tell(&Obstacle::BankStands),
            Statement::Course(_)
            | Statement::Request(_)
            | Statement::Send(_)
            | Statement::Repeat(_)
            | Statement::Bytes(_)
            | Statement::SendOn => {}
        }
        Ok(Step::Done)
    }

    // Has the gateway perform a message, and adds its answer to the line, and what the bank and the
    // books have of it.
    fn perform<H: Shown>(
        &mut self,
        gateway: &mut Gateway<H>,
        opened: Opened,
    ) -> Result<(), AllocError> {
        let (kind, fields) = (opened.kind(), opened.fields());
        let answered = Answered::Full(gateway.perform(opened));
        self.line.add(kind.name())?;
        self.line.add(": ")?;
        self.answer(&answered)?;
        Found::of(gateway, kind, &fields).show(&mut self.line)
    }

    // Opens a message and has the gateway perform it, and shows what comes of it.
    fn handle<H: Shown>(&mut self, gateway: &mut Gateway<H>, message: &[u8]) -> anyhow::Result<()> {
        self.line.begin(self.number)?;
        match open(message, &mut [0; STRIP]) {
            Ok(opened) => self.perform(gateway, opened)?,
            Err(refusal) => self.answer(&Answered::Short(refusal))?,
        }
        self.out.write_all(self.line.end()?)?;
        Ok(())
    }

    // Has the gateway send on, and shows how many rows of the stand-in went, and those that stay.
    fn send_on<H: Shown>(&mut self, gateway: &mut Gateway<H>) -> anyhow::Result<Step> {
        if gateway.host().rows().is_empty() {
            return Ok(self.tell(&Obstacle::NoStandIn)?);
        }
        let stood = count_standing(gateway.host().rows());
        gateway.send_on();
        self.line.begin(self.number)?;
        show_rows(stood, gateway.host().rows(), &mut self.line)?;
        self.out.write_all(self.line.end()?)?;
        Ok(Step::Done)
    }

    // Has the stage carry out the statement that a line makes.
    fn carry_out_line<S: Stage>(
        &mut self,
        alloc: Global,
        line: &str,
        stage: &mut S,
    ) -> anyhow::Result<Step> {
        let words = words_of(alloc, line)?;
        if words.is_empty() {
            return Ok(Step::Done);
        }
        match Statement::read(&words) {
            Ok(statement) => stage.carry_out(self, &statement),
            Err(fault) => Ok(self.tell(&Obstacle::NoStatement(fault))?),
        }
    }
}

// The stage before the first message, in which the bank is described.
#[derive(Drop)]
struct Describing {
    alloc: Global,
    setup: Setup,
    sender: Sender,
}

impl Describing {
    fn new(alloc: Global) -> Describing {
        Describing {
            alloc,
            setup: Setup::new(alloc),
            sender: Sender::new(alloc),
        }
    }
}

impl Stage for Describing {
    fn carry_out<W: Write + Drop>(
        &mut self,
        desk: &mut Desk<'_, W>,
        statement: &Statement<'_>,
    ) -> anyhow::Result<Step> {
        match *statement {
            Statement::Bank(line) => self.setup.add(&line)?,
            Statement::Send(_) | Statement::Repeat(_) | Statement::Bytes(_) | Statement::SendOn =>
                return Ok(Step::Over),
            Statement::Fresh => *self = Describing::new(self.alloc),
            Statement::Course(_)
            | Statement::Request(_)
            | Statement::Case(_)
            | Statement::Expect { .. } => {
                let _ = self.sender.message(statement, &mut [0; LONGEST]);
                return Ok(desk.note(statement)?);
            }
        }
        Ok(Step::Done)
    }
}

// The stage of the messages, once the bank stands.
#[derive(Drop)]
struct Sending<'s, H> {
    gateway: Gateway<H>,
    sender: &'s mut Sender,
}

impl<H: Shown> Stage for Sending<'_, H> {
    fn carry_out<W: Write + Drop>(
        &mut self,
        desk: &mut Desk<'_, W>,
        statement: &Statement<'_>,
    ) -> anyhow::Result<Step> {
        if matches!(statement, Statement::SendOn) {
            return desk.send_on(&mut self.gateway);
        }
        match self.sender.message(statement, &mut [0; LONGEST]) {
            Ok(Some(message)) => {
                desk.handle(&mut self.gateway, message)?;
                Ok(Step::Done)
            }
            Ok(None) => Ok(desk.note(statement)?),
            Err(obstacle) => Ok(desk.tell(&obstacle)?),
        }
    }
}

// Goes through the lines of a stage, and says whether one ends it.
fn go_through<R: Read, W: Write + Drop, S: Stage>(
    alloc: Global,
    lines: &mut Lines<R>,
    desk: &mut Desk<'_, W>,
    stage: &mut S,
) -> anyhow::Result<bool> {
    for _ in 0..u64::MAX {
        if !desk.advance(lines)? {
            return Ok(false);
        }
        let step = match lines.text() {
            Some(line) => desk.carry_out_line(alloc, line, stage)?,
            None => desk.tell(&Obstacle::NotText)?,
        };
        match step {
            Step::Done => {}
            Step::Over => return Ok(true),
        }
    }
    Ok(false)
}

// Goes through the messages over a bank, and says whether another case follows.
fn send_over<R: Read, W: Write + Drop, H: Shown + Drop>(
    alloc: Global,
    lines: &mut Lines<R>,
    desk: &mut Desk<'_, W>,
    sender: &mut Sender,
    bank: H,
) -> anyhow::Result<bool> {
    let Ok(gateway) = Gateway::new(alloc, bank) else {
        return Err(anyhow!("no memory for the books"));
    };
    go_through(alloc, lines, desk, &mut Sending { gateway, sender })
}

// Goes through the messages over a bank, with a stand-in over it where it has a floor.
fn send_with<R: Read, W: Write + Drop, H: Shown + Drop>(
    alloc: Global,
    lines: &mut Lines<R>,
    desk: &mut Desk<'_, W>,
    sender: &mut Sender,
    bank: H,
    floor: Option<Amount>,
) -> anyhow::Result<bool> {
    match floor {
        Some(floor) => send_over(alloc, lines, desk, sender, StandIn::new(bank, floor)),
        None => send_over(alloc, lines, desk, sender, bank),
    }
}

// The line to a bank of two hosts, of which the left one has the cards between the bounds.
fn line_to<L: Host, R: Host>(
    left: L,
    right: R,
    low: u64,
    high: u64,
    marks: &[u8],
) -> BadLine<RangeSplit<L, R>> {
    BadLine::new(RangeSplit::new(left, right, low, high), marks)
}

// Makes the bank that is described, goes through the messages over it, and says whether another
// case follows.
fn send_all<R: Read, W: Write + Drop>(
    alloc: Global,
    lines: &mut Lines<R>,
    desk: &mut Desk<'_, W>,
    setup: &mut Setup,
    sender: &mut Sender,
) -> anyhow::Result<bool> {
    let mut holds = setup.holds(alloc)?;
    let book = AccountBook::new(&setup.accounts, &mut holds);
    let drawer = VoucherDrawer::new(&mut setup.vouchers);
    let (low, high) = (setup.low, setup.high);
    match setup.side {
        Side::Book => {
            let bank = line_to(book, drawer, low, high, &setup.marks);
            send_with(alloc, lines, desk, sender, bank, setup.floor)
        }
        Side::Drawer => {
            let bank = line_to(drawer, book, low, high, &setup.marks);
            send_with(alloc, lines, desk, sender, bank, setup.floor)
        }
    }
}

/// Goes through one case, and says whether another follows.
pub fn rehearse<R: Read, W: Write + Drop>(
    alloc: Global,
    lines: &mut Lines<R>,
    out: &mut BufWriter<W>,
    tally: &mut Tally,
) -> anyhow::Result<bool> {
    let mut desk = Desk {
        out,
        tally,
        number: 0,
        answered: None,
        line: Line::new(alloc),
    };
    let mut described = Describing::new(alloc);
    if !go_through(alloc, lines, &mut desk, &mut described)? {
        return Ok(false);
    }
    // the message that ends the description
    lines.put_back();
    send_all(
        alloc,
        lines,
        &mut desk,
        &mut described.setup,
        &mut described.sender,
    )
}
