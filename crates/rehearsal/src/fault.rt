//! Why a line of a rehearsal is no statement.
use std::error::Error;
use std::fmt;
use std::num::ParseIntError;

/// Why a line is no statement.
#[derive(Debug, Drop)]
pub enum Fault {
    /// Its first word begins no statement.
    Unknown,
    /// Its words are not those of the statement that the first one begins.
    Form,
    /// A number is none, or does not fit.
    Number(ParseIntError),
    /// The name of a purchase has more than 20 bytes.
    Name,
}

impl From<ParseIntError> for Fault {
    ghost use Rattle.rehearsal.specs.declared.fault.Fault.TheVariants.{Number};
    ghost use Rattle.std.specs.Prelude.{◌≡◌};

    ghost from_gives = { λ error fault. fault ≡ Number error };

    fn from(error: ParseIntError) -> Fault {
        Fault::Number(error)
    }
}

impl fmt::Display for Fault {
    fn fmt<W: fmt::Write>(&self, f: &mut fmt::Formatter<W>) -> fmt::Result {
        match self {
            Fault::Unknown => f.write_str("no statement begins with this word"),
            Fault::Form => f.write_str("the words after the first are not this statement's"),
            Fault::Number(error) => write!(f, "a number cannot be read: {error}"),
            Fault::Name => f.write_str("the name of a purchase has at most 20 bytes"),
        }
    }
}

impl Error for Fault {}
