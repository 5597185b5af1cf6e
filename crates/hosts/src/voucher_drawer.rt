//! A host over prepaid vouchers, each good for one reference at a time.
ghost use Rattle.std.specs.Prelude.{◌≡◌, map, Some};
ghost use Rattle.host.specs.Parts.{HoldsNothing, heard_puts, heard_reads};
ghost use Rattle.hosts.specs.Drawer.{FoundAt, is_voucher, held_under, raisable};
ghost use Rattle.hosts.specs.Drawer.{changed, unused, vouchers_written};
ghost use Rattle.hosts.specs.DrawerHost.{DrawerPutStep, DrawerWritten, DrawerServes};
ghost use Rattle.hosts.specs.DrawerHost.{drawer_assent, drawer_held};
ghost use Rattle.hosts.specs.Keeper.{HeardReadStep};

use crate::keeper::{self, Keeper};
use host::{Amount, Card, Host, Pair, PutReply, ReadReply, Reference, SendsOn};
use rows::{Keyed, search};

/// A prepaid voucher. The first one with a card counts.
#[derive(Clone, Copy, PartialEq, Eq, Debug)]
pub struct Voucher {
    pub card: Card,
    /// The most that it may hold, in pence.
    pub face: Amount,
    /// The reference that it was last raised under, 0 before any.
    pub reference: Reference,
    /// What it holds under that reference, in pence; it is free for any other while this is 0.
    pub held: Amount,
}

impl Voucher {
    /// The voucher as it was before any use.
    fn unused(self) -> Voucher
        ensures { result ≡ unused self }
    {
        Voucher {
            reference: 0,
            held: 0,
            ..self
        }
    }

    /// What it holds under the reference: 0 under any but its own.
    fn held_under(&self, reference: Reference) -> Amount
        ensures { result ≡ held_under reference (Some self.now) }
    {
        if self.reference == reference {
            self.held
        } else {
            0
        }
    }

    /// Whether it may be raised to the amount under the reference.
    fn raisable(&self, reference: Reference, amount: Amount) -> bool
        ensures { result ≡ raisable reference amount (Some self.now) }
    {
        amount <= self.face && (self.held == 0 || self.reference == reference)
    }

    /// The voucher once a put of the amount is done.
    fn changed(self, reference: Reference, amount: Amount) -> Voucher
        ensures { result ≡ changed reference amount self }
    {
        if amount != 0 {
            Voucher {
                reference,
                held: amount,
                ..self
            }
        } else if self.reference == reference {
            Voucher { held: 0, ..self }
        } else {
            self
        }
    }
}

impl Keyed for Voucher {
    type Key = Card;

    ghost same = { λ voucher card. is_voucher card voucher };

    fn has(&self, card: &Card) -> bool {
        self.card == *card
    }
}

/// Updates the first voucher with the card where it lies.
fn change_voucher(vouchers: &mut [Voucher], pair: Pair, found: Option<usize>, amount: Amount)
    requires { FoundAt vouchers.old pair.card found }
    ensures { vouchers.new ≡ vouchers_written vouchers.old pair amount }
{
    if let Some(place) = found {
        vouchers[place] = vouchers[place].changed(pair.reference, amount);
    }
}

/// Makes every voucher as it was before any use.
#[tactic(auto, using(crate::proofs::InPlace::map_turn))]
fn clear(vouchers: &mut [Voucher])
    ensures { vouchers.new ≡ map unused vouchers.old }
{
    for voucher in vouchers.iter_mut() {
        *voucher = voucher.unused();
    }
}

/// A lent list of vouchers, changed where it lies. Every call is heard.
#[derive(Drop)]
pub struct VoucherDrawer<'v> {
    vouchers: &'v mut [Voucher],
}

impl<'v> VoucherDrawer<'v> {
    /// A drawer over the vouchers, each made as it was before any use.
    #[tactic(auto, using(crate::proofs::Drawer::unused_holds_nothing))]
    pub fn new(vouchers: &'v mut [Voucher]) -> VoucherDrawer<'v>
        ensures rows { result.vouchers.now ≡ map unused vouchers.old }
        ensures nothing { HoldsNothing (drawer_held result) }

        // so the lent list is left with the drawer's last rows
        ensures same_list { result.vouchers.ghost_name ≡ vouchers.entry.ghost_name }
    {
        clear(vouchers);
        VoucherDrawer { vouchers }
    }

    /// What is held for the pair.
    pub fn held(&self, pair: Pair) -> Amount
        ensures { result ≡ drawer_held self.now pair }
    {
        self.amount_held(pair, self.place(pair))
    }

    /// The vouchers as they are now.
    pub fn vouchers(&self) -> &[Voucher]
        ensures { result.now ≡ self.now.vouchers.now }
    {
        self.vouchers
    }
}

impl Keeper for VoucherDrawer<'_> {
    ghost held = { drawer_held };

    ghost assent = { drawer_assent };

    ghost served = { DrawerServes };

    ghost written = { DrawerWritten };

    #[tactic(auto, using(crate::proofs::Drawer::found_at))]
    fn place(&self, pair: Pair) -> Option<usize> {
        search(self.vouchers, &pair.card)
    }

    fn amount_held(&self, pair: Pair, found: Option<usize>) -> Amount {
        match found {
            Some(place) => {
                let voucher = self.vouchers[place];
                voucher.held_under(pair.reference)
            }
            None => 0,
        }
    }

    fn assents(&self, pair: Pair, found: Option<usize>, amount: Amount) -> bool {
        match found {
            Some(place) => {
                let voucher = self.vouchers[place];
                voucher.raisable(pair.reference, amount)
            }
            None => false,
        }
    }

    #[tactic(auto, using(crate::proofs::Drawer::written_holds))]
    fn write(&mut self, pair: Pair, found: Option<usize>, amount: Amount) {
        change_voucher(self.vouchers, pair, found, amount);
    }
}

impl Host for VoucherDrawer<'_> {
    ghost held = { drawer_held };

    ghost assent = { drawer_assent };

    ghost put_fate = { λ _. heard_puts };

    ghost read_fate = { λ _. heard_reads };

    ghost put_step = { DrawerPutStep };

    ghost read_step = { HeardReadStep drawer_held };

    fn put(&mut self, pair: Pair, amount: Amount) -> PutReply {
        keeper::put(self, pair, amount)
    }

    fn read(&mut self, pair: Pair) -> ReadReply {
        ReadReply::Holds(self.held(pair))
    }
}

/// It has nothing to send on: what it answers done it holds.
impl SendsOn for VoucherDrawer<'_> {
    ghost send_step = { λ before after. after ≡ before };

    fn send_on(&mut self) {}
}
