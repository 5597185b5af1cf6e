//! When two XIDs and two messages are the same.
ghost use Rattle.std.specs.Prelude.{◌≡◌, take};
ghost use Rattle.std.specs.Int.{from_le_bytes, w64};
ghost use Rattle.wire.specs.Bytes.{same_bytes};
ghost use Rattle.rules.specs.Same.{same_fields};

use wire::message::{Fields, Xid};

#[inline(never)]
fn equal(a: &Xid, b: &Xid) -> bool
    ensures { result ≡ same_bytes a.now b.now }
{
    a == b
}

// The first eight bytes as one number.
fn front(xid: &Xid) -> u64
    ensures { result ≡ from_le_bytes w64 (take 8 xid.now) }
{
    match xid.first_chunk() {
        Some(bytes) => u64::from_le_bytes(*bytes),
        None => 0,
    }
}

/// The same XID. Most differ within the first eight bytes, which are compared at once.
pub fn same_xid(a: &Xid, b: &Xid) -> bool
    ensures { result ≡ same_bytes a.now b.now }
{
    front(a) == front(b) && equal(a, b)
}

/// Equal in all fields.
pub fn same_fields(m: &Fields, n: &Fields) -> bool
    ensures { result ≡ same_fields m.now n.now }
{
    m == n
}
