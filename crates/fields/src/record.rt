//! A file of records, each a length byte and a message.
ghost use Rattle.std.specs.Prelude.{◌≡◌};
ghost use Rattle.fields.specs.Record.{seen, first_record, records_in, records_left};

use std::error::Error;
use std::fmt;

/// A record that is cut: fewer bytes come after its length byte than it says.
#[derive(Clone, Copy, PartialEq, Eq, Debug)]
pub struct Cut;

impl fmt::Display for Cut {
    ghost use Rattle.std.specs.Prelude.{Some, codes};

    ghost output = { λ _. Some (codes "cut") };

    fn fmt<W: fmt::Write>(&self, f: &mut fmt::Formatter<W>) -> fmt::Result {
        f.write_str("cut")
    }
}

impl Error for Cut {}

/// What stands at the front of these bytes: nothing where they are at their end, a cut record, or a
/// message and the records after it.
pub fn first_record(bytes: &[u8]) -> Option<Result<(&[u8], &[u8]), Cut>>
    ensures { seen result ≡ first_record bytes.now }
{
    let (length, rest) = bytes.split_first()?;
    Some(rest.split_at_checked(usize::from(*length)).ok_or(Cut))
}

/// The messages of a file in order. A cut record is the last thing that comes.
#[derive(Clone, Copy)]
pub struct Records<'a> {
    rest: &'a [u8],
}

impl<'a> Records<'a> {
    /// The records in these bytes, from the first.
    pub fn new(bytes: &'a [u8]) -> Records<'a>
        ensures { records_left result ≡ records_in bytes.now }
    {
        Records { rest: bytes }
    }
}

impl<'a> Iterator for Records<'a> {
    ghost use Rattle.std.specs.Iterator.{YieldsFirstBy, item_count};
    ghost use Rattle.fields.specs.Record.{shown, records_left};

    type Item = Result<&'a [u8], Cut>;

    ghost next_gives = { YieldsFirstBy shown records_left };

    ghost remaining = { item_count records_left };

    #[tactic(auto, using(crate::proofs::Recorded::whole_first))]
    fn next(&mut self) -> Option<Result<&'a [u8], Cut>> {
        match first_record(self.rest) {
            None => None,
            Some(Ok((message, after))) => {
                self.rest = after;
                Some(Ok(message))
            }
            Some(Err(Cut)) => {
                self.rest = &[];
                Some(Err(Cut))
            }
        }
    }
}
