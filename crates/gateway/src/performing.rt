//! The gateway: its books, the host behind it, performing a message, and handling one from bytes to
//! bytes.
ghost use Rattle.std.specs.Prelude.{◌≡◌, IfOk, IfErr, length};
ghost use Rattle.rules.specs.Ledger.{no_ledger};
ghost use Rattle.law.specs.Repeats.{full};
ghost use Rattle.law.specs.Between.{Between};
ghost use Rattle.law.specs.Carried.{BeginsLaw, CarriesLaw, KeepsLaw, spelling};
ghost use Rattle.wire.specs.Answer.{full_into};
ghost use Rattle.wire.specs.Buffer.{over_front};
ghost use Rattle.law.specs.History.{opened};
ghost use Rattle.gateway.specs.Handling.{Handles, HandlesLaw, answer_to, given_by, no_room};
ghost use Rattle.gateway.specs.Performing.{Performs};

use crate::books::Books;
use crate::handled::Handled;
use host::{Host, SendsOn};
use rules::batch::Batch;
use rules::outcome::{Outcome, Performed};
use rules::plan::Plan;
use rules::purchase::Purchase;
use rules::remembered::{Recalled, Remembered};
use std::alloc::{AllocFailed, Global};
use wire::answer::{Answer, FULL_LENGTH, write_full, write_short};
use wire::message::Fields;
use wire::opened::Opened;
use wire::{STRIP, open};

/// There is no room: the answer buffer is shorter than a full answer, or the strip is too short.
fn lacks_room(answer: &[u8], strip: &[u8]) -> bool
    ensures { result ≡ no_room answer.now strip.now }
{
    answer.len() < FULL_LENGTH || strip.len() < STRIP
}

/// The answer to a message.
fn answer_to(m: &Fields, performed: Performed) -> Answer
    ensures { result ≡ answer_to m.now performed }
{
    Answer {
        kind: m.kind,
        request: m.request,
        course: m.course,
        amount: performed.amount,
        code: u8::from(performed.outcome),
    }
}

/// A gateway over a host. Neither its books nor its host can be written from outside.
///
/// The law over runs stands of it: `new` begins it over a host that holds nothing, and `perform`
/// and `handle` carry it from any history that leads to the gateway to the longer one; `send_on`
/// keeps every such history. That a history leads to the gateway (`Reached`) is the invariant by
/// which the law is carried.
#[derive(Drop)]
pub struct Gateway<H> {
    books: Books,
    host: H,
}

impl<H: Host> Gateway<H> {
    /// A gateway with empty books. If there is no memory for them, the host is returned.
    pub fn new(heap: Global, host: H) -> Result<Gateway<H>, AllocFailed<H>>
        ensures books { IfOk result (λ g. g.books ≡ no_ledger) }
        ensures host { IfOk result (λ g. g.host ≡ host) }
        ensures law { IfOk result (λ g. BeginsLaw H.Host.held g.books g.host) }
        ensures refused { IfErr result (λ back. back.value ≡ host) }
    {
        match Books::new(heap) {
            Ok(books) => Ok(Gateway { books, host }),
            Err(_) => Err(AllocFailed { value: host }),
        }
    }

    /// Performs an opened message and uses it up: it is answered, and moves books and host, as the
    /// rules say. It counts as handling the message's bytes, and carries the law over runs.
    pub fn perform(&mut self, message: Opened) -> Performed
        ensures rules { Performs H.Host message.fields self.old.books self.old.host
            result self.new.books self.new.host }
        ensures law { CarriesLaw H.Host.held (spelling message.fields) (full result)
            self.old.books self.old.host self.new.books self.new.host }
    {
        let silent_at = match self.books.recall(&message) {
            Recalled::Answered(answer) => return answer,
            Recalled::Used => {
                return Performed::refused(&message.fields(), Outcome::RequestNumberUsed);
            }
            Recalled::Open(silent_at) => silent_at,
        };
        let found = self.books.look_up(&message);
        match found.plan(&message, silent_at) {
            Plan::Answer(answer) => answer,
            Plan::Commit(change) => self.books.commit(change),
            Plan::Put(put) => {
                let reply = self.host.put(put.pair, put.fields.amount);
                self.books.commit(put.settled(reply))
            }
            Plan::Read(pair) => Performed::from(self.host.read(pair)),
        }
    }

    /// A message is performed, and its full answer written.
    fn answer_full(&mut self, message: Opened, answer: &mut [u8]) -> Performed
        ensures after { answer.new ≡ over_front
            (full_into (length answer.old) (answer_to message.fields result)) answer.old }
        ensures rules { Performs H.Host message.fields self.old.books self.old.host
            result self.new.books self.new.host }
        ensures law { CarriesLaw H.Host.held (spelling message.fields) (full result)
            self.old.books self.old.host self.new.books self.new.host }
    {
        let m = message.fields();
        let performed = self.perform(message);
        let _ = write_full(&answer_to(&m, performed), answer);
        performed
    }

    /// Handles the bytes of a message: opens them on the strip, performs the message, and writes
    /// its answer into the front of the answer buffer. A buffer under 24 bytes or a strip under 19
    /// is refused first, and everything stays as it was.
    pub fn handle(&mut self, message: &[u8], strip: &mut [u8], answer: &mut [u8]) -> Handled
        ensures rules { Handles H.Host self.old.books self.old.host answer.old strip.old
            result self.new.books self.new.host answer.new strip.new
            (no_room answer.old strip.old) (opened message.now) }
        ensures law { HandlesLaw (no_room answer.old strip.old) H.Host.held message.now
            (given_by result) self.old.books self.old.host self.new.books self.new.host }
    {
        if lacks_room(answer, strip) {
            return Handled::NoRoom;
        }
        match open(message, strip) {
            Ok(opened) => {
                let kind = opened.kind();
                Handled::Full(kind, self.answer_full(opened, answer))
            }
            Err(refusal) => {
                let _ = write_short(u8::from(refusal), answer);
                Handled::Short(refusal)
            }
        }
    }
}

impl<H: SendsOn> Gateway<H> {
    /// Tells the host to send on what a stand-in answered in place of a silent bank: a call between
    /// two messages. The books stay, every amount held stays, and each history that led to the
    /// gateway still does.
    #[tactic(auto, using(law::proofs::Between::keeps))]
    pub fn send_on(&mut self)
        ensures host { H.SendsOn.send_step self.old.host self.new.host }
        ensures between { Between self.old.books (H.Host.held self.old.host)
            self.new.books (H.Host.held self.new.host) }
        ensures law { KeepsLaw H.Host.held self.old.books self.old.host
            self.new.books self.new.host }
    {
        self.host.send_on();
    }
}

impl<H> Gateway<H> {
    /// The purchases booked so far; the first has reference 1.
    pub fn purchases(&self) -> &[Purchase]
        ensures { result.now ≡ self.now.books.purchases }
    {
        self.books.purchases()
    }

    /// The answers remembered so far, each with its message.
    pub fn answers(&self) -> &[Remembered]
        ensures { result.now ≡ self.now.books.answers }
    {
        self.books.answers()
    }

    /// The batches opened so far, each with its total.
    pub fn batches(&self) -> &[Batch]
        ensures { result.now ≡ self.now.books.batches }
    {
        self.books.batches()
    }

    /// The host behind the gateway.
    pub fn host(&self) -> &H
        ensures { result.now ≡ self.now.host }
    {
        &self.host
    }
}
