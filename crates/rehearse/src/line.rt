//! A line of what is shown.
use console::shown::{LAST_FOUR, Masked};
use itoa::{Buffer, Integer};
use std::alloc::{AllocError, Global};

/// A line that is put together piece by piece, and then written at once.
#[derive(Drop)]
pub struct Line {
    text: String,
}

impl Line {
    /// A line with nothing in it.
    pub fn new(alloc: Global) -> Line {
        Line {
            text: String::new(alloc),
        }
    }

    /// Begins a line about the rehearsal's line of this number.
    pub fn begin(&mut self, number: u64) -> Result<(), AllocError> {
        self.text.clear();
        self.add_labelled("line ", number)?;
        self.add(": ")
    }

    /// Adds words as they are.
    #[inline(always)]
    pub fn add(&mut self, words: &str) -> Result<(), AllocError> {
        self.text.push_str(words)
    }

    /// Adds a number in decimal digits, a minus before it where it is negative.
    pub fn add_number<I: Integer>(&mut self, number: I) -> Result<(), AllocError> {
        self.text.push_str(Buffer::new().format(number))
    }

    /// Adds words, and a number after them.
    #[inline(always)]
    pub fn add_labelled<I: Integer>(&mut self, words: &str, number: I) -> Result<(), AllocError> {
        self.add(words)?;
        self.add_number(number)
    }

    /// Adds a card, by its last four digits. They are written after a 1, which keeps their leading
    /// zeros and is left out.
    pub fn add_card(&mut self, number: u64) -> Result<(), AllocError> {
        let masked = Masked(number);
        self.add(masked.stars())?;
        let mut buffer = Buffer::new();
        let digits = buffer.format(LAST_FOUR + masked.last_four());
        self.add(digits.get(1..).unwrap_or(digits))
    }

    /// Ends the line, and gives its bytes.
    pub fn end(&mut self) -> Result<&[u8], AllocError> {
        self.add("\n")?;
        Ok(self.text.as_bytes())
    }
}
