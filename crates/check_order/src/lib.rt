// The order of a store's records by bit count, bits and version: whether one slot stands before another, whether a row of slots ascends,
// and whether it names each record. The roots stand first, by their versions; so that no two live together shows at each root and the next.
#![tactic(auto)]

ghost use Rattle.std.specs.Prelude.{◌≡◌, true, length};
ghost use Rattle.terms.specs.Bits.{before};
ghost use Rattle.layout.specs.Headers.{size_right};
ghost use Rattle.layout.specs.Stores.{Has};
ghost use Rattle.check_pass.specs.Passes.{Room, Passed, Each};
ghost use Rattle.check_order.specs.Order.{node_key, key_no, PartedNo, Follows, InOrder, Named, NamedAt};

use check_kin::ends_before;
use hash::{hash_at, same_hash};
use place::before;
use slots::bits_of;
use store::{count_at, retired_at, slot_count, slot_of, version_at, wide};
use terms::Form;

// Whether slot i stands before slot j: by the bit count, then by the bits, then by the version.
fn ahead(form: Form, store: &[u8], i: usize, j: usize) -> bool
    requires { Has form store.now i × Has form store.now j }
    ensures { result ≡ before (key_no form node_key store.now i) (key_no form node_key store.now j) }
{
    let c = count_at(form, store, i);
    let d = count_at(form, store, j);
    if c != d {
        return c < d;
    }
    let x = bits_of(slot_of(form, store, i));
    let y = bits_of(slot_of(form, store, j));
    if same_hash(hash_at(x, 0), hash_at(y, 0)) {
        return version_at(form, store, i) < version_at(form, store, j);
    }
    before(x, y)
}

// Whether, where slot j holds a root, the life of slot i's record ends by its version.
fn parted(form: Form, store: &[u8], latest: u32, i: usize, j: usize) -> bool
    requires { Has form store.now i × Has form store.now j }
    ensures { Passed result (PartedNo form latest store.now i j) }
{
    if count_at(form, store, j) != 0 {
        return true;
    }
    ends_before(latest, retired_at(form, store, i)) <= version_at(form, store, j) as u64
}

// Whether two entries name slots in order, two roots parted.
fn in_order(form: Form, store: &[u8], latest: u32, n: usize, a: usize, b: usize) -> bool
    requires { Room form store.now n }
    ensures { Passed result (Follows form latest store.now a b) }
{
    if n <= a {
        return false;
    }
    if n <= b {
        return false;
    }
    if !ahead(form, store, a, b) {
        return false;
    }
    parted(form, store, latest, a, b)
}

// How many entries of a row, from the first on, name slots in ascending order, roots parted.
pub fn ascending(form: Form, store: &[u8], latest: u32, order: &[u16]) -> usize
    requires { size_right form (length store.now) ≡ true }
    ensures { InOrder form latest store.now order.now result }
{
    let n = slot_count(form, store);
    for k in 1..order.len() {
        if !in_order(form, store, latest, n, wide(order[k - 1]), wide(order[k])) {
            return k;
        }
    }
    order.len()
}

// Whether a slot is named where its rank says.
fn is_named(order: &[u16], rank: u16, i: usize) -> bool
    ensures { Passed result (Named order.now (length order.now) i) }
{
    match order.get(wide(rank)) {
        Some(named) => wide(*named) == i,
        None => false,
    }
}

// The same of slot i, unless its version says that it is free.
fn slot_named(form: Form, store: &[u8], order: &[u16], rank: u16, i: usize) -> bool
    requires { Has form store.now i }
    ensures { Passed result (NamedAt form store.now order.now (length order.now) i) }
{
    if version_at(form, store, i) == 0 {
        return true;
    }
    is_named(order, rank, i)
}

// How many slots, from the first on, are free or named where their rank says.
pub fn named(form: Form, store: &[u8], order: &[u16], ranks: &[u16; 16384]) -> usize
    requires { size_right form (length store.now) ≡ true }
    ensures { Each (NamedAt form store.now order.now (length order.now)) result }
{
    let n = slot_count(form, store);
    for i in 0..n {
        if !slot_named(form, store, order, ranks[i], i) {
            return i;
        }
    }
    n
}
