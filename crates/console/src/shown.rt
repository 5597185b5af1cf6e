//! How the programs show a card, an amount and bytes.
ghost use Rattle.std.specs.Prelude.{◌≡◌, ◌%◌};

use std::fmt;

/// A card is told by its last four digits, a number below this.
pub const LAST_FOUR: u64 = 10_000;

// A star for each of the digits that a number of 64 bits has before them at most.
const STARS: &str = "****************";

/// A card number by its last four digits, with a star for each digit before them.
#[derive(Clone, Copy)]
pub struct Masked(pub u64);

impl Masked {
    /// A star for each digit before the last four.
    pub fn stars(&self) -> &'static str {
        let hidden = (self.0 / LAST_FOUR)
            .checked_ilog10()
            .map_or(0, |tens| tens + 1);
        STARS.get(..hidden as usize).unwrap_or(STARS)
    }

    /// The last four digits, as a number.
    pub fn last_four(&self) -> u64
        ensures { result ≡ self.now.0 % LAST_FOUR }
    {
        self.0 % LAST_FOUR
    }
}

impl fmt::Display for Masked {
    fn fmt<W: fmt::Write>(&self, f: &mut fmt::Formatter<W>) -> fmt::Result {
        write!(f, "{}{:04}", self.stars(), self.last_four())
    }
}

/// Bytes in hexadecimal, two digits to a byte.
#[derive(Clone, Copy)]
pub struct Hexadecimal<'a>(pub &'a [u8]);

impl fmt::Display for Hexadecimal<'_> {
    fn fmt<W: fmt::Write>(&self, f: &mut fmt::Formatter<W>) -> fmt::Result {
        for byte in self.0 {
            write!(f, "{byte:02x}")?;
        }
        Ok(())
    }
}
