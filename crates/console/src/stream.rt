//! Records as they come from a reader, one at a time: memory does not grow with what is read.
ghost use Rattle.std.specs.Prelude.{◌≡◌, ◌<◌, ◌≤◌, IfOk, length, take};
ghost use Rattle.std.specs.Io.KnownBytes.{Consumes, IsAtEnd};
ghost use Rattle.console.specs.Stream.{TakesRecord, has_whole_record};

use fields::record::{Cut, first_record};
use std::io;
use std::io::{ErrorKind, Read};

/// How long a record's message is at most: its length is one byte.
pub const LONGEST: usize = 255;

// Reads until the room is full or the reader is at its end, and says how many bytes came.
fn fill<R: Read>(reader: &mut R, room: &mut [u8]) -> io::Result<usize>
    ensures fits { IfOk result (λ count. count ≤ length room.new) }
    ensures same { length room.new ≡ length room.old }
    ensures bytes { IfOk result (λ count. Consumes (R.remaining reader.old) (R.remaining reader.new)
        (take count room.new)) }
    ensures end { IfOk result (λ count. count < length room.new
        → IsAtEnd (R.remaining reader.new)) }
{
    let mut at = 0;
    for _ in 0..u64::MAX {
        if at >= room.len() {
            return Ok(at);
        }
        match reader.read(&mut room[at..]) {
            Ok(0) => return Ok(at),
            Ok(count) => at += count,
            Err(error) => {
                if error.kind() != ErrorKind::Interrupted {
                    return Err(error);
                }
            }
        }
    }
    Err(io::Error::from(ErrorKind::Interrupted))
}

/// Whether these bytes begin with a whole record, so that one can be read from them alone.
pub fn holds_record(bytes: &[u8]) -> bool
    ensures { result ≡ has_whole_record bytes.now }
{
    matches!(first_record(bytes), Some(Ok(_)))
}

/// Reads the next record: nothing where the reader is at its end, a message, or a record that the
/// end cuts. The buffer is left with the message. Where a read fails, what had come of the record
/// is lost.
pub fn read_record<'b, R: Read>(
    reader: &mut R,
    buffer: &'b mut [u8; LONGEST],
) -> io::Result<Option<Result<&'b [u8], Cut>>>
    ensures { IfOk result (λ taken. TakesRecord (R.remaining reader.old) taken
        (R.remaining reader.new)) }
{
    let mut first = [0; 1];
    if fill(reader, &mut first)? == 0 {
        return Ok(None);
    }
    let room = &mut buffer[..usize::from(first[0])];
    if fill(reader, room)? < room.len() {
        return Ok(Some(Err(Cut)));
    }
    Ok(Some(Ok(room)))
}
