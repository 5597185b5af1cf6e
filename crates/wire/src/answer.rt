//! The answers of the gateway: the full one, and the short one for a message that was not opened.
ghost use Rattle.std.specs.Prelude.{◌≡◌, length};
ghost use Rattle.wire.specs.Answer.{AnswersComeOut, answer_parts, full_into, short_into};
ghost use Rattle.wire.specs.Buffer.{over_front, length_written, numbered};

use crate::lay::lay;
use crate::parts::Parts;
use fields::field::Map;
use fields::refusal::Refusal;

/// The map of the full answer: fields 1, 2, 3, 6 and 8.
const FULL: Map = Map { bits: 0xE500 };

/// How many bytes the full answer has.
pub const FULL_LENGTH: usize = 24;

/// The map of the short answer: field 8 alone.
const SHORT: Map = Map { bits: 0x0100 };

/// The gateway's answer to a message that it opened. Any kind and any code is written as it is
/// given.
#[derive(Clone, Copy, PartialEq, Eq, Debug)]
pub struct Answer {
    /// the kind of the message that is answered
    pub kind: u8,
    /// the request number of that message
    pub request: u64,
    /// its course
    pub course: u32,
    /// in pence, in two's complement where it is a batch total
    pub amount: u64,
    /// 0, or the number of a refusal
    pub code: u8,
}

impl From<&Answer> for Parts {
    ghost from_gives = { λ answer parts. parts ≡ answer_parts answer.now };

    fn from(answer: &Answer) -> Parts {
        // An answer has neither XID, card nor batch.
        Parts {
            kind: answer.kind,
            request: answer.request,
            course: answer.course,
            xid: [0; 20],
            card: [0; 10],
            amount: answer.amount,
            batch: 0,
            code: answer.code,
        }
    }
}

/// Writes a full answer into the front of a buffer and answers its length, which is 24; the bytes
/// past it stay. A shorter buffer is refused with `Refusal::ShortBuffer` and left as it was.
pub fn write_full(answer: &Answer, buffer: &mut [u8]) -> Result<usize, Refusal>
    ensures value { numbered result ≡ length_written (full_into (length buffer.old) answer.now) }
    ensures after { buffer.new ≡ over_front (full_into (length buffer.old) answer.now) buffer.old }
    ensures table { AnswersComeOut }
{
    lay(FULL, &Parts::from(answer), buffer)
}

/// Writes a short answer, which has this code alone, into the front of a buffer and answers its
/// length, which is 3; the bytes past it stay. A shorter buffer is refused with
/// `Refusal::ShortBuffer` and left as it was.
pub fn write_short(code: u8, buffer: &mut [u8]) -> Result<usize, Refusal>
    ensures value { numbered result ≡ length_written (short_into (length buffer.old) code) }
    ensures after { buffer.new ≡ over_front (short_into (length buffer.old) code) buffer.old }
{
    let answer = Answer {
        kind: 0,
        request: 0,
        course: 0,
        amount: 0,
        code,
    };
    lay(SHORT, &Parts::from(&answer), buffer)
}
