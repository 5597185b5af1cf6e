//! The stand-in as a host.
ghost use Rattle.std.specs.Prelude.{◌≡◌, ◌<◌, slice_index_or, slice_set};
ghost use Rattle.host.specs.Parts.{NothingWhere, SameHeld};
ghost use Rattle.stand_in.specs.Put.{answer_to, rows_after, takes};
ghost use Rattle.stand_in.specs.Parts.{StandInPut, StandInRead, stand_in_assent, stand_in_held};
ghost use Rattle.stand_in.specs.Parts.{stand_in_put_fate, stand_in_read_fate};
ghost use Rattle.stand_in.specs.Rows.{Kept, no_rows, row_amount};
ghost use Rattle.stand_in.specs.Sent.{SendsRow, SendsRows, StandInSends};
ghost use Rattle.stand_in.specs.declared.row.Row.{Row};
ghost use Rattle.stand_in.specs.declared.row.Row.TheVariants.{Free};

use crate::row::{Row, Rows};
use host::{Amount, Host, Pair, PutReply, ReadReply, SendsOn};

/// A stand-in over a host. Where the host below is silent it answers in its place, up to a floor,
/// and keeps what it so answered in a row for each pair, until a put of the pair is done below.
#[derive(Drop)]
pub struct StandIn<H> {
    below: H,
    floor: Amount,
    rows: Rows,
}

impl<H: Host> StandIn<H> {
    /// A stand-in over the host, with this floor in pence and all rows free.
    pub fn new(below: H, floor: Amount) -> StandIn<H>
        ensures below { result.below ≡ below }
        ensures floor { result.floor ≡ floor }
        ensures rows { result.rows ≡ no_rows }
        ensures nothing { NothingWhere (H.Host.held below) (stand_in_held H.Host.held result) }
    {
        StandIn {
            below,
            floor,
            rows: Rows::new(),
        }
    }
}

impl<H> StandIn<H> {
    /// The host below.
    pub fn below(&self) -> &H
        ensures { result.now ≡ self.now.below }
    {
        &self.below
    }

    /// The most that it answers for where the host below is silent, in pence.
    pub fn floor(&self) -> Amount
        ensures { result ≡ self.now.floor }
    {
        self.floor
    }

    /// The rows, free ones included, of which a pair has one at most.
    pub fn rows(&self) -> &[Row]
        ensures rows { result.now ≡ self.now.rows }
        ensures kept { Kept self.now.rows }
    {
        self.rows.as_slice()
    }

    /// The amount of the pair's row in pence, where one stands; it is then what is held.
    pub fn row_amount(&self, pair: Pair) -> Option<Amount>
        ensures amount { result ≡ row_amount self.now.rows pair }
        ensures kept { Kept self.now.rows }
    {
        self.rows.amount_of(pair)
    }

    /// Whether it takes the amount on itself, where the host below answered so: by the amount of
    /// the pair's row, and by whether there is a place for it.
    fn takes(&self, below: PutReply, amount: Amount, own: Option<Amount>, has_place: bool) -> bool
        ensures { result ≡ takes self.now.floor amount own has_place below }
    {
        let is_within = own.is_some_and(|own| amount <= own);
        match below {
            PutReply::Done => false,
            PutReply::Refused => is_within,
            PutReply::Silent => (amount <= self.floor || is_within) && has_place,
        }
    }

    /// Writes or drops the pair's row, by what the host below answered to a put, and answers it.
    fn settle(&mut self, below: PutReply, pair: Pair, amount: Amount) -> PutReply
        ensures answer { result ≡ answer_to self.old.rows self.old.floor pair amount below }
        ensures rows { self.new.rows ≡ rows_after self.old.rows self.old.floor pair amount below }
        ensures below { self.new.below ≡ self.old.below }
        ensures floor { self.new.floor ≡ self.old.floor }
        ensures kept { Kept self.old.rows }
    {
        let (place, own) = self.rows.find(pair);
        if self.takes(below, amount, own, place.is_some()) {
            self.rows.write(pair, place, amount);
            return PutReply::Done;
        }
        if below == PutReply::Done {
            self.rows.drop_row(pair, place);
        }
        below
    }
}

impl<H: Host> StandIn<H> {
    /// Puts the row at the place, if one stands there, to the host below, and drops it if that is
    /// done.
    fn send_row(&mut self, place: usize)
        requires { place < 16 }
        ensures row { SendsRow H.Host.put_step place self.old self.new }
        ensures holds { SameHeld (stand_in_held H.Host.held self.new)
            (stand_in_held H.Host.held self.old) }
        ensures kept { Kept self.old.rows }
    {
        if let Row::Stands { pair, amount } = self.rows.at(place) {
            match self.below.put(pair, amount) {
                PutReply::Done => self.rows.drop_at(place),
                PutReply::Refused | PutReply::Silent => {}
            }
        }
    }

    /// Puts each row that stands to the host below, once, in row order, and drops those that are
    /// done. No amount held is moved.
    pub fn send_rows(&mut self)
        ensures rows { SendsRows H.Host.put_step self.old self.new }
        ensures holds { SameHeld (stand_in_held H.Host.held self.new)
            (stand_in_held H.Host.held self.old) }
    {
        for place in 0..self.rows().len() {
            self.send_row(place);
        }
    }
}

impl<H: Host> Host for StandIn<H> {
    ghost held = { stand_in_held H.Host.held };

    ghost assent = { stand_in_assent H.Host.put_fate H.Host.held H.Host.assent };

    ghost put_fate = { stand_in_put_fate H.Host.put_fate H.Host.held H.Host.assent };

    ghost read_fate = { stand_in_read_fate H.Host.read_fate };

    ghost put_step = { StandInPut H.Host.put_step };

    ghost read_step = { StandInRead H.Host.read_step };

    fn put(&mut self, pair: Pair, amount: Amount) -> PutReply {
        let below = self.below.put(pair, amount);
        self.settle(below, pair, amount)
    }

    fn read(&mut self, pair: Pair) -> ReadReply {
        match self.row_amount(pair) {
            Some(own) => ReadReply::Holds(own),
            None => self.below.read(pair),
        }
    }
}

impl<H: SendsOn> SendsOn for StandIn<H> {
    ghost send_step = { StandInSends H.Host.put_step H.SendsOn.send_step };

    fn send_on(&mut self) {
        self.below.send_on();
        self.send_rows();
    }
}
