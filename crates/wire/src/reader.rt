//! Reads the fields of a message by place.
ghost use Rattle.std.specs.Prelude.{◌≡◌, ◌+◌, length, None, IfOk, IfErr, OnOk, Some, count_ones};
ghost use Rattle.fields.specs.Field.{bit_of, width, fields_from};
ghost use Rattle.fields.specs.Kind.{kind_number, map_of, length_of};
ghost use Rattle.fields.specs.Refusal.{refusal_number};
ghost use Rattle.wire.specs.Layout.{piece_in, parts_in};
ghost use Rattle.wire.specs.Opening.{map_in, up_to, Framed};

use crate::parts::Parts;
use fields::field::{Field, Map};
use fields::kind::Kind;
use fields::refusal::Refusal;

/// The lent message, once its frame is known to be right.
#[derive(Drop)]
struct Reader<'a> {
    message: &'a [u8],
    kind: Kind,
    /// how many fields are still to be handed out
    left: u32,
    ghost long: { length message.now ≡ length_of (kind_number kind) },
}

fn map_in(message: &[u8]) -> Result<Map, Refusal>
    ensures map { IfOk result (λ map. map.bits ≡ map_in message.now) }
    ensures passed { OnOk result (up_to 1 message.now ≡ None) }
    ensures refused { IfErr result (λ e. up_to 1 message.now ≡ Some (refusal_number e)) }
{
    if message.len() < 3 {
        return Err(Refusal::NotAMessage);
    }
    let map = Map {
        bits: u16::from_be_bytes([message[0], message[1]]),
    };
    if !map.has(Field::Kind) {
        return Err(Refusal::NotAMessage);
    }
    if map.bits % 256 != 0 {
        return Err(Refusal::NotAMessage);
    }
    Ok(map)
}

/// The checks of the frame: map, kind and length. The reader hands out as many fields as the map
/// has set bits.
fn frame(message: &[u8]) -> Result<Reader<'_>, Refusal>
    ensures framed { IfOk result (λ reader. Framed message.now reader.kind) }
    ensures whole { IfOk result (λ reader. reader.message.now ≡ message.now) }
    ensures counted { IfOk result (λ reader. reader.left ≡ count_ones (map_in message.now)) }
    ensures refused { IfErr result (λ e. up_to 4 message.now ≡ Some (refusal_number e)) }
{
    let map = map_in(message)?;
    let kind = Kind::try_from(message[2])?;
    if map != kind.map() {
        return Err(Refusal::WrongMap);
    }
    if message.len() != kind.length() {
        return Err(Refusal::WrongLength);
    }
    Ok(Reader {
        message,
        kind,
        left: map.count(),
    })
}

impl Reader<'_> {
    /// The bytes of a field, as many as the table says; zeros where the kind lacks it.
    fn field<const N: usize>(&mut self, field: Field) -> [u8; N]
        requires left { self.old.left
            ≡ fields_from (map_of (kind_number self.old.kind)) (bit_of field) }
        requires wide { N ≡ width (bit_of field) }
        ensures value { result
            ≡ piece_in (map_of (kind_number self.old.kind)) self.old.message.now (bit_of field) }
        ensures left { self.new.left
            ≡ fields_from (map_of (kind_number self.old.kind)) (bit_of field + 1) }
        ensures same { (self.new.message.now ≡ self.old.message.now)
            × (self.new.kind ≡ self.old.kind) }
    {
        let mut bytes = [0; N];
        let map = self.kind.map();
        if map.has(field) {
            self.left -= 1;
            let at = map.place(field);
            bytes.copy_from_slice(&self.message[at..at + field.width()]);
        }
        bytes
    }

    /// Each field, by its place, until none is left to hand out.
    fn parts(&mut self) -> Parts
        requires { self.old.left ≡ count_ones (map_of (kind_number self.old.kind)) }
        ensures value { result
            ≡ parts_in (map_of (kind_number self.old.kind)) self.old.message.now }
        ensures all { self.new.left ≡ 0 }
    {
        Parts {
            kind: u8::from_be_bytes(self.field(Field::Kind)),
            request: u64::from_be_bytes(self.field(Field::Request)),
            course: u32::from_be_bytes(self.field(Field::Course)),
            xid: self.field(Field::Xid),
            card: self.field(Field::Card),
            amount: u64::from_be_bytes(self.field(Field::Amount)),
            batch: u32::from_be_bytes(self.field(Field::Batch)),
            code: u8::from_be_bytes(self.field(Field::Code)),
        }
    }
}

/// The kind and the parts of a message whose frame is right.
pub fn parts_of(message: &[u8]) -> Result<(Kind, Parts), Refusal>
    ensures framed { IfOk result (λ found. Framed message.now found.0) }
    ensures parts { IfOk result (λ found. found.1 ≡ parts_in (map_in message.now) message.now) }
    ensures refused { IfErr result (λ e. up_to 4 message.now ≡ Some (refusal_number e)) }
{
    let mut reader = frame(message)?;
    Ok((reader.kind, reader.parts()))
}
