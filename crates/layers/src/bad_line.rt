//! A line that loses calls or replies, over any host.
ghost use Rattle.std.specs.Prelude.{◌≡◌, take, drop};
ghost use Rattle.std.specs.Fn.{FnOnceReturnsAtMut};
ghost use Rattle.host.specs.Parts.{NothingWhere};
ghost use Rattle.layers.specs.Line.{LineSends, LineStep, mark_fate, marks_left, most_marks};
ghost use Rattle.layers.specs.Line.{next_fate, spent};
ghost use Rattle.layers.specs.Line.{line_assent, line_held, line_put_fate, line_put_step};
ghost use Rattle.layers.specs.Line.{line_read_fate, line_read_step};

use arrayvec::{ArrayVec, IntoIter};
use host::{Amount, Fate, Host, Pair, PutReply, ReadReply, SendsOn};

/// The most marks that a line takes.
pub const MARKS: usize = 64;

/// The mark under which a call is lost on its way to the host.
pub const LOSES_CALL: u8 = 1;

/// The mark under which the reply is lost on its way back.
pub const LOSES_ANSWER: u8 = 2;

/// A line to the host below, and the marks that are left of it; each call spends one.
#[derive(Drop)]
pub struct BadLine<H> {
    below: H,
    // goes over the marks by their place, so that spending one moves none of the others
    marks: IntoIter<u8, MARKS>,
}

/// What a mark does to a call that meets it.
fn mark_fate(mark: u8) -> Fate
    ensures { result ≡ mark_fate mark }
{
    match mark {
        LOSES_CALL => Fate::LostGoing,
        LOSES_ANSWER => Fate::LostReturning,
        _ => Fate::Heard,
    }
}

impl<H: Host> BadLine<H> {
    /// A line over the host, with the first marks of the list, at most as many as it takes.
    pub fn new(below: H, marks: &[u8]) -> BadLine<H>
        ensures below { result.below ≡ below }
        ensures marks { marks_left result ≡ take most_marks marks.now }
        ensures nothing { NothingWhere (H.Host.held below) (line_held H.Host.held result) }
    {
        let count = MARKS.min(marks.len());
        let mut left = ArrayVec::new();
        let _ = left.try_extend_from_slice(&marks[..count]);
        BadLine {
            below,
            marks: left.into_iter(),
        }
    }

    /// Spends the next mark, and says what it does to the call.
    fn spend(&mut self) -> Fate
        ensures fate { result ≡ next_fate (marks_left self.old) }
        ensures marks { marks_left self.new ≡ spent (marks_left self.old) }
        ensures below { self.new.below ≡ self.old.below }
    {
        self.marks.next().map_or(Fate::Heard, mark_fate)
    }

    /// Spends the next mark on the call, and makes it below unless the mark loses it; a call that
    /// is lost, or whose reply is, comes to silence.
    fn carry<A: Drop, F: FnOnce(&mut H) -> A + Drop>(&mut self, call: F, silence: A) -> A
        requires { F.IsAlwaysCallable call }
        ensures { LineStep (FnOnceReturnsAtMut F.FnOnce call) silence self.old result self.new }
    {
        match self.spend() {
            Fate::Heard => call(&mut self.below),
            Fate::LostGoing => silence,
            Fate::LostReturning => {
                drop(call(&mut self.below));
                silence
            }
        }
    }
}

impl<H> BadLine<H> {
    /// The marks that are left, the next one first.
    pub fn marks(&self) -> &[u8]
        ensures { result.now ≡ marks_left self.now }
    {
        self.marks.as_slice()
    }

    /// The host below.
    pub fn below(&self) -> &H
        ensures { result.now ≡ self.now.below }
    {
        &self.below
    }
}

impl<H: Host> Host for BadLine<H> {
    ghost held = { line_held H.Host.held };

    ghost assent = { line_assent H.Host.assent };

    ghost put_fate = { line_put_fate H.Host.put_fate };

    ghost read_fate = { line_read_fate H.Host.read_fate };

    ghost put_step = { line_put_step H.Host.put_step };

    ghost read_step = { line_read_step H.Host.read_step };

    fn put(&mut self, pair: Pair, amount: Amount) -> PutReply {
        self.carry(|below| below.put(pair, amount), PutReply::Silent)
    }

    fn read(&mut self, pair: Pair) -> ReadReply {
        self.carry(|below| below.read(pair), ReadReply::Silent)
    }
}

/// The host below is told to send on. That is neither a put nor a read, so no mark is spent.
impl<H: SendsOn> SendsOn for BadLine<H> {
    ghost send_step = { LineSends H.SendsOn.send_step };

    fn send_on(&mut self) {
        self.below.send_on();
    }
}
