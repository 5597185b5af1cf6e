//! The sixteen fields of a message: how wide each is, and at which place it stands under a bit map.
ghost use Rattle.std.specs.Prelude.{◌≡◌, ◌<◌, ◌≤◌, count_ones};
ghost use Rattle.fields.specs.Field.{bit_of, width, stands, widths_to, place, length_under, fields_to};

/// How many bits a map has, one for each field, the highest for field 1.
pub const FIELDS: usize = 16;

/// The width of each field in bytes, by bit. The last eight are reserved and never set.
const WIDTHS: [usize; 16] = [1, 8, 4, 20, 10, 8, 4, 1, 0, 0, 0, 0, 0, 0, 0, 0];

/// The fields in use, 1 to 8, each with its bit counted from the highest.
#[derive(Clone, Copy, PartialEq, Eq, Debug)]
pub enum Field {
    /// Field 1: which of the nine messages it is.
    Kind = 0,
    /// Field 2: names this request of the course; SET's RRPID, shortened to 8 bytes.
    Request = 1,
    /// Field 3: the racecourse; SET's merchant.
    Course = 2,
    /// Field 4: the purchase's name, as in SET.
    Xid = 3,
    /// Field 5: the card's digits, packed two to a byte.
    Card = 4,
    /// Field 6: pence.
    Amount = 5,
    /// Field 7: the number of a batch of the course.
    Batch = 6,
    /// Field 8: 0 or the number of a refusal; only answers have it.
    Code = 7,
}

impl Field {
    /// The field's bit in a map, counted from the highest: 0 for field 1.
    pub fn bit(self) -> usize
        ensures { result ≡ bit_of self }
    {
        self as usize
    }

    /// How many bytes the field takes up.
    pub fn width(self) -> usize
        ensures { result ≡ width (bit_of self) }
    {
        width_at(self.bit())
    }
}

fn width_at(bit: usize) -> usize
    requires { bit < 16 }
    ensures { result ≡ width bit }
{
    WIDTHS[bit]
}

/// Which fields a message has: a bit for each, the highest for field 1.
#[derive(Clone, Copy, PartialEq, Eq, Debug)]
pub struct Map {
    /// the map as a number, as its two bytes write it, the higher first
    pub bits: u16,
}

impl Map {
    fn has_bit(self, bit: usize) -> bool
        requires { bit < 16 }
        ensures { result ≡ stands self.bits bit }
    {
        (self.bits >> (15 - bit)) % 2 == 1
    }

    /// What the fields below this bit take up together.
    fn widths_to(self, end: usize) -> usize
        requires { end ≤ 16 }
        ensures { result ≡ widths_to self.bits end }
    {
        let mut total = 0;
        for bit in 0..end {
            if self.has_bit(bit) {
                total += width_at(bit);
            }
        }
        total
    }

    /// Whether a message with this map has the field.
    pub fn has(self, field: Field) -> bool
        ensures { result ≡ stands self.bits (bit_of field) }
    {
        self.has_bit(field.bit())
    }

    /// The place of a field's first byte: after the two bytes of the map and the fields before it.
    pub fn place(self, field: Field) -> usize
        ensures { result ≡ place self.bits (bit_of field) }
    {
        2 + self.widths_to(field.bit())
    }

    /// How many bytes a message with this map has.
    pub fn length(self) -> usize
        ensures { result ≡ length_under self.bits }
    {
        2 + self.widths_to(FIELDS)
    }

    /// How many fields a message with this map has: as many as the map has set bits.
    pub fn count(self) -> u32
        ensures value { result ≡ count_ones self.bits }
        ensures counted { result ≡ fields_to self.bits 16 }
    {
        self.bits.count_ones()
    }
}
