//! Lays fields out in a buffer by place, as the reader finds them.
ghost use Rattle.std.specs.Prelude.{◌≡◌, ◌≤◌, ◌++◌, length, drop};
ghost use Rattle.wire.specs.Bytes.{bytes_of};
ghost use Rattle.fields.specs.Field.{bit_of, width, length_under};
ghost use Rattle.wire.specs.Buffer.{over_front, length_written, numbered};
ghost use Rattle.wire.specs.Layout.{placed, laid, laying_into};

use crate::parts::Parts;
use fields::field::{Field, Map};
use fields::refusal::Refusal;

fn put_map(buffer: &mut [u8], map: Map)
    requires { 2 ≤ length buffer.old }
    ensures { buffer.new ≡ bytes_of 2 map.bits ++ drop 2 buffer.old }
{
    buffer[0..2].copy_from_slice(&map.bits.to_be_bytes());
}

/// Writes a field at its place, as wide as the table says, if the map has it.
fn put(buffer: &mut [u8], map: Map, field: Field, bytes: &[u8])
    requires room { length_under map.bits ≤ length buffer.old }
    requires wide { length bytes.now ≡ width (bit_of field) }
    ensures { buffer.new ≡ placed map.bits (bit_of field) bytes.now buffer.old }
{
    if map.has(field) {
        let at = map.place(field);
        buffer[at..at + field.width()].copy_from_slice(bytes);
    }
}

/// Lays out the map and the fields whose bits are set in it. The hints let a map that is known when
/// this is compiled fix the places too.
#[inline(always)]
fn fill(map: Map, parts: &Parts, buffer: &mut [u8])
    requires { length_under map.bits ≤ length buffer.old }
    ensures long { length (laid map.bits parts.now) ≡ length_under map.bits }
    ensures after { buffer.new
        ≡ laid map.bits parts.now ++ drop (length_under map.bits) buffer.old }
{
    put_map(buffer, map);
    put(buffer, map, Field::Kind, &parts.kind.to_be_bytes());
    put(buffer, map, Field::Request, &parts.request.to_be_bytes());
    put(buffer, map, Field::Course, &parts.course.to_be_bytes());
    put(buffer, map, Field::Xid, &parts.xid);
    put(buffer, map, Field::Card, &parts.card);
    put(buffer, map, Field::Amount, &parts.amount.to_be_bytes());
    put(buffer, map, Field::Batch, &parts.batch.to_be_bytes());
    put(buffer, map, Field::Code, &parts.code.to_be_bytes());
}

/// Lays out a message or an answer and returns its length. A buffer that is too short is refused
/// and left as it was.
#[inline(always)]
pub fn lay(map: Map, parts: &Parts, buffer: &mut [u8]) -> Result<usize, Refusal>
    ensures value { numbered result
        ≡ length_written (laying_into (length buffer.old) map.bits parts.now) }
    ensures after { buffer.new
        ≡ over_front (laying_into (length buffer.old) map.bits parts.now) buffer.old }
{
    let length = map.length();
    if buffer.len() < length {
        return Err(Refusal::ShortBuffer);
    }
    fill(map, parts, buffer);
    Ok(length)
}
