//! Two hosts, of which each card has one by its leading digits.
ghost use Rattle.std.specs.Prelude.{◌≡◌};
ghost use Rattle.host.specs.Parts.{NothingWhereBoth};
ghost use Rattle.layers.specs.Digits.{LeadingSix, leading_six};
ghost use Rattle.layers.specs.Split.{SplitSends, is_left, split_assent, split_held};
ghost use Rattle.layers.specs.Split.{split_put_fate, split_put_step};
ghost use Rattle.layers.specs.Split.{split_read_fate, split_read_step};

use host::{Amount, Card, Host, Pair, PutReply, ReadReply, SendsOn};

/// The least number of more than six digits.
const SEVEN_DIGITS: u64 = 1_000_000;

/// The leading six digits of a card number; one under six digits whole.
fn leading_six(number: u64) -> u64
    ensures value { result ≡ leading_six number }
    ensures digits { LeadingSix number result }
{
    let mut front = number;
    while front >= SEVEN_DIGITS {
        front /= 10;
    }
    front
}

/// Two hosts, and the bounds between which the leading six digits of the left one's cards lie.
#[derive(Drop)]
pub struct RangeSplit<L, R> {
    left: L,
    right: R,
    low: u64,
    high: u64,
}

impl<L, R> RangeSplit<L, R> {
    /// The host of the cards whose leading six digits lie between the bounds.
    pub fn left(&self) -> &L
        ensures { result.now ≡ self.now.left }
    {
        &self.left
    }

    /// The host of all other cards.
    pub fn right(&self) -> &R
        ensures { result.now ≡ self.now.right }
    {
        &self.right
    }

    /// Whether the card belongs to the left host.
    pub fn is_left(&self, card: Card) -> bool
        ensures { result ≡ is_left self.now card }
    {
        let front = leading_six(card.number);
        (self.low..=self.high).contains(&front)
    }
}

impl<L: Host, R: Host> RangeSplit<L, R> {
    /// A split of the cards whose leading six digits lie between the bounds, ends included, from
    /// all others.
    pub fn new(left: L, right: R, low: u64, high: u64) -> RangeSplit<L, R>
        ensures sides { (result.left ≡ left) × (result.right ≡ right) }
        ensures bounds { (result.low ≡ low) × (result.high ≡ high) }
        ensures nothing { NothingWhereBoth (L.Host.held left) (R.Host.held right)
            (split_held L.Host.held R.Host.held result) }
    {
        RangeSplit {
            left,
            right,
            low,
            high,
        }
    }
}

impl<L: Host, R: Host> Host for RangeSplit<L, R> {
    ghost held = { split_held L.Host.held R.Host.held };

    ghost assent = { split_assent L.Host.assent R.Host.assent };

    ghost put_fate = { split_put_fate L.Host.put_fate R.Host.put_fate };

    ghost read_fate = { split_read_fate L.Host.read_fate R.Host.read_fate };

    ghost put_step = { split_put_step L.Host.put_step R.Host.put_step };

    ghost read_step = { split_read_step L.Host.read_step R.Host.read_step };

    fn put(&mut self, pair: Pair, amount: Amount) -> PutReply {
        if self.is_left(pair.card) {
            self.left.put(pair, amount)
        } else {
            self.right.put(pair, amount)
        }
    }

    fn read(&mut self, pair: Pair) -> ReadReply {
        if self.is_left(pair.card) {
            self.left.read(pair)
        } else {
            self.right.read(pair)
        }
    }
}

/// Both sides send on, the left one first.
impl<L: SendsOn, R: SendsOn> SendsOn for RangeSplit<L, R> {
    ghost send_step = { SplitSends L.SendsOn.send_step R.SendsOn.send_step };

    fn send_on(&mut self) {
        self.left.send_on();
        self.right.send_on();
    }
}
