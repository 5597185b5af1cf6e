//! Why a line of a rehearsal is not carried out.
use crate::fault::Fault;
use fields::refusal::Refusal;
use std::alloc::AllocFailed;
use std::error::Error;
use std::fmt;

/// Why a line is not carried out. The rehearsal goes on after it.
#[derive(Debug, Drop)]
pub enum Obstacle {
    /// Its bytes are no text.
    NotText,
    /// It is no statement.
    NoStatement(Fault),
    /// The writer refuses the message, which is not sent.
    NotWritten(Refusal),
    /// It says something of the bank after a message.
    BankStands,
    /// It expects an answer where no message was sent.
    NothingSent,
    /// It sends on where the bank has no stand-in.
    NoStandIn,
    /// It repeats a message that was not sent, or too long ago.
    NotRemembered,
    /// Its bytes are more than a record holds.
    TooLong,
    /// There is no memory to keep the message, which is not sent.
    OutOfMemory,
}

impl<T: Drop> From<AllocFailed<T>> for Obstacle {
    ghost use Rattle.rehearsal.specs.declared.obstacle.Obstacle.TheVariants.{OutOfMemory};
    ghost use Rattle.std.specs.Prelude.{◌≡◌};

    ghost from_gives = { λ _ obstacle. obstacle ≡ OutOfMemory };

    fn from(_error: AllocFailed<T>) -> Obstacle {
        Obstacle::OutOfMemory
    }
}

impl fmt::Display for Obstacle {
    fn fmt<W: fmt::Write>(&self, f: &mut fmt::Formatter<W>) -> fmt::Result {
        match self {
            Obstacle::NotText => f.write_str("not read: its bytes are no text"),
            Obstacle::NoStatement(fault) => write!(f, "not read: {fault}"),
            Obstacle::NotWritten(refusal) => {
                let code = u8::from(*refusal);
                write!(f, "not sent: the writer refuses it, {code} {refusal}")
            }
            Obstacle::BankStands => f.write_str(
                "not done: the bank is described before the first message or `send on`, or after \
                 `fresh`",
            ),
            Obstacle::NothingSent => f.write_str("not done: no message was sent before it"),
            Obstacle::NoStandIn => f.write_str(
                "not done: the bank has no stand-in, which `stand-in PENCE` gives it where it is \
                 described",
            ),
            Obstacle::NotRemembered => f.write_str(
                "not sent: no message of this request number is among the last 256",
            ),
            Obstacle::TooLong => f.write_str("not sent: a record holds at most 255 bytes"),
            Obstacle::OutOfMemory => f.write_str("not sent: there is no memory to keep it"),
        }
    }
}

impl Error for Obstacle {}
