//! The lines of a rehearsal, one at a time.
use memchr::memchr;
use std::alloc::{AllocError, Global};
use std::io;
use std::io::{BufRead, BufReader, Read};

/// How many bytes a line has at most.
const LONGEST_LINE: usize = 4_096;

// Reads to the end of a line, or of the longest line that there is.
fn read_limited<B: BufRead>(reader: &mut B, line: &mut Vec<u8>) -> io::Result<usize> {
    reader.take(LONGEST_LINE as u64).read_until(b'\n', line)
}

// The line at the front of the bytes, where its end is among them.
fn first_line(bytes: &[u8]) -> Option<&[u8]> {
    let end = memchr(b'\n', bytes)?;
    if end < LONGEST_LINE {
        bytes.get(..=end)
    } else {
        None
    }
}

/// A reader of lines, with the line that it has come to.
#[derive(Drop)]
pub struct Lines<R> {
    reader: BufReader<R>,
    line: Vec<u8>,
    number: u64,
    // the line is to come once more
    again: bool,
}

impl<R: Read> Lines<R> {
    pub fn new(alloc: Global, reader: BufReader<R>) -> Lines<R> {
        Lines {
            reader,
            line: Vec::new(alloc),
            number: 0,
            again: false,
        }
    }

    /// Goes on to the next line where it comes without a wait, and says whether it does: it comes
    /// once more, or waits whole in the buffer.
    pub fn advance_at_once(&mut self) -> Result<bool, AllocError> {
        if self.again {
            self.again = false;
            return Ok(true);
        }
        let Some(line) = first_line(self.reader.buffer()) else {
            return Ok(false);
        };
        let length = line.len();
        self.line.clear();
        self.line.extend_from_slice(line)?;
        self.reader.consume(length);
        self.number = self.number.saturating_add(1);
        Ok(true)
    }

    /// Goes on to the next line, for which it may wait, and says whether there is one.
    pub fn advance(&mut self) -> io::Result<bool> {
        if self.advance_at_once()? {
            return Ok(true);
        }
        self.line.clear();
        read_limited(&mut self.reader, &mut self.line)?;
        self.number = self.number.saturating_add(1);
        Ok(!self.line.is_empty())
    }

    /// Has the line come once more.
    pub fn put_back(&mut self) {
        self.again = true;
    }

    /// The number of the line, from 1.
    pub fn number(&self) -> u64 {
        self.number
    }

    /// The line as text, or nothing where its bytes are none.
    pub fn text(&self) -> Option<&str> {
        str::from_utf8(self.line.as_slice()).ok()
    }
}
