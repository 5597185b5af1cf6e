//! What handling a message came to, and the line that is printed for it.
ghost use Rattle.std.specs.Prelude.{Some};
ghost use Rattle.gateway.specs.Line.{line_of};

use fields::kind::Kind;
use fields::refusal::Refusal;
use rules::outcome::Performed;
use std::fmt;

/// What handling the bytes of a message came to.
#[derive(Clone, Copy, PartialEq, Eq, Debug)]
pub enum Handled {
    /// The answer buffer or the digit strip is too short: nothing was done or written.
    NoRoom,
    /// The bytes hold no message: a short answer was written.
    Short(Refusal),
    /// A message of this kind was performed: a full answer was written.
    Full(Kind, Performed),
}

/// The code and the amount, a total with its sign; `-` where there is no amount.
impl fmt::Display for Handled {
    ghost output = { λ handled. Some (line_of handled) };

    fn fmt<W: fmt::Write>(&self, f: &mut fmt::Formatter<W>) -> fmt::Result {
        match *self {
            // the number of `Refusal::ShortBuffer`, the one refusal that can come here
            Handled::NoRoom => write!(f, "1 -"),
            Handled::Short(refusal) => {
                let code = u8::from(refusal);
                write!(f, "{code} -")
            }
            Handled::Full(Kind::BatchClose, performed) => {
                let code = u8::from(performed.outcome);
                let total = performed.signed();
                write!(f, "{code} {total}")
            }
            Handled::Full(_, performed) => {
                let code = u8::from(performed.outcome);
                let amount = performed.amount;
                write!(f, "{code} {amount}")
            }
        }
    }
}
