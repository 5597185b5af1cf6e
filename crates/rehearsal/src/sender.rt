//! The messages of a rehearsal as bytes: course and request numbers as they go on, and what was
//! sent, to be repeated.
ghost use Rattle.std.specs.Prelude.{◌≡◌, IfSome};

use crate::message::Message;
use crate::obstacle::Obstacle;
use crate::statement::{Statement, byte_of};
use std::alloc::Global;
use std::collections::VecDeque;
use wire::message::Fields;
use wire::write;

/// How many bytes a message has at most, those given byte by byte included.
pub const LONGEST: usize = 255;

/// The course of the messages where none is given.
const COURSE: u32 = 9;

/// How many messages are kept, to be repeated.
const KEPT: usize = 256;

/// The next message's course and request number, and the last messages.
#[derive(Drop)]
pub struct Sender {
    course: u32,
    request: u64,
    sent: VecDeque<Fields>,
}

// Writes the message into the front of the buffer.
fn write_into<'b>(fields: &Fields, buffer: &'b mut [u8; LONGEST]) -> Result<&'b [u8], Obstacle> {
    match write(fields, buffer) {
        Ok(length) => Ok(buffer.get(..length).unwrap_or(&[])),
        Err(refusal) => Err(Obstacle::NotWritten(refusal)),
    }
}

// Lays the bytes that the words write into the front of the buffer.
fn lay_bytes<'b>(words: &[&str], buffer: &'b mut [u8; LONGEST]) -> Result<&'b [u8], Obstacle> {
    let Some(room) = buffer.get_mut(..words.len()) else {
        return Err(Obstacle::TooLong);
    };
    for (place, word) in room.iter_mut().zip(words) {
        *place = byte_of(word).unwrap_or(0);
    }
    Ok(room)
}

// The last of these messages that has the course and the request number.
fn last_under(sent: &[Fields], course: u32, request: u64) -> Option<Fields>
    ensures { IfSome result (λ sent. (sent.request ≡ request) × (sent.course ≡ course)) }
{
    sent.iter()
        .rev()
        .find(|sent| sent.request == request && sent.course == course)
        .copied()
}

impl Sender {
    /// The first message is request 1 of course 9.
    pub fn new(alloc: Global) -> Sender {
        Sender {
            course: COURSE,
            request: 1,
            sent: VecDeque::new(alloc),
        }
    }

    // Keeps a message that was sent, and lets go of the oldest where there are too many.
    fn keep(&mut self, fields: Fields) -> Result<(), Obstacle> {
        if self.sent.len() >= KEPT {
            let _ = self.sent.pop_front();
        }
        self.sent.push_back(fields)?;
        Ok(())
    }

    // The last message of the course that was sent under the request number.
    fn sent_under(&self, request: u64) -> Option<Fields>
        ensures { IfSome result (λ sent.
            (sent.request ≡ request) × (sent.course ≡ self.now.course)) }
    {
        let (older, newer) = self.sent.as_slices();
        match last_under(newer, self.course, request) {
            Some(sent) => Some(sent),
            None => last_under(older, self.course, request),
        }
    }

    // The bytes of a new message, under the next request number.
    fn send<'b>(
        &mut self,
        message: &Message,
        buffer: &'b mut [u8; LONGEST],
    ) -> Result<&'b [u8], Obstacle> {
        let fields = message.fields(self.course, self.request);
        let bytes = write_into(&fields, buffer)?;
        self.keep(fields)?;
        self.request = self.request.saturating_add(1);
        Ok(bytes)
    }

    /// The bytes of the message that the statement sends, nothing for any other statement. A
    /// message that the writer refuses is not sent, and the next one has its request number.
    pub fn message<'b>(
        &mut self,
        statement: &Statement<'_>,
        buffer: &'b mut [u8; LONGEST],
    ) -> Result<Option<&'b [u8]>, Obstacle> {
        let bytes = match statement {
            Statement::Send(message) => self.send(message, buffer)?,
            Statement::Repeat(request) => match self.sent_under(*request) {
                Some(fields) => write_into(&fields, buffer)?,
                None => return Err(Obstacle::NotRemembered),
            },
            Statement::Bytes(words) => lay_bytes(words, buffer)?,
            Statement::Course(course) => {
                self.course = *course;
                return Ok(None);
            }
            Statement::Request(request) => {
                self.request = *request;
                return Ok(None);
            }
            Statement::Bank(_)
            | Statement::Case(_)
            | Statement::Fresh
            | Statement::Expect { .. }
            | Statement::SendOn => return Ok(None),
        };
        Ok(Some(bytes))
    }
}
