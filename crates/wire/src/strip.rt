//! The guard over the digit strip that the customer display shares.
ghost use Rattle.std.specs.Prelude.{◌≡◌, replicate, if◌then◌else◌, Some, None};
ghost use Rattle.wire.specs.Card.{well_packed, card_number};

use crate::card;

/// How many bytes of the strip are used: a card has at most 19 digits.
pub const STRIP: usize = card::MOST_DIGITS;

/// Whoever holds the strip by this guard leaves zeros in it, so that the display never keeps a
/// card's digits.
pub struct Strip<'a> {
    pub digits: &'a mut [u8; STRIP],
}

impl Drop for Strip<'_> {
    fn drop(self)
        ensures { self.exit.0.now ≡ replicate 19 0 }
    {
        self.digits.fill(0);
        let Strip { digits: _ } = self;
    }
}

/// The number of the card that ten bytes hold, or nothing where they hold none.
pub fn card(strip: &mut [u8; STRIP], bytes: &[u8; 10]) -> Option<u64>
    ensures { result ≡ (if well_packed bytes.now then Some (card_number bytes.now) else None) }
{
    let all = card::split(bytes);
    let digits = card::digits_of(&all)?;
    *strip = card::spread(&all, digits.len());
    if !card::passes_luhn(strip) {
        return None;
    }
    Some(card::number(digits))
}
