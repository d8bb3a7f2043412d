// The first entry of an ordered table that isn't before a node, by halves: one look at an entry says whether it is before.
#![tactic(auto)]

ghost use Rattle.std.specs.Prelude.{◌≡◌, true, ◌<◌, length, get_or};
ghost use Rattle.terms.specs.Bits.{before};
ghost use Rattle.place.specs.Place.{place_of, Proper};
ghost use Rattle.layout.specs.Headers.{size_right};
ghost use Rattle.layout.specs.Stores.{store_of};
ghost use Rattle.ordered.specs.Ordered.{node_key, key_no, Ordered};
ghost use Rattle.order_halves.specs.First.{First};

use order_look::compared;
use place::Place;
use store::wide;
use terms::Form;

// Whether entry k is before a version and place.
pub fn is_before(store: &[u8], order: &[u16], k: usize, version: u32, place: Place) -> bool
    requires { (size_right Form.Counted (length store.now) ≡ true) × Ordered (store_of store.now).slots order.now (length order.now) × Proper place × (k < length order.now) }
    ensures { result ≡ before (key_no (store_of store.now).slots (get_or order.now k 0)) (node_key version (place_of place)) }
{
    let bits = place.bits;
    let count = place.count;
    compared(store, wide(order[k]), count, &bits, version).is_lt()
}

// The first entry that isn't before a version and place, by halves.
pub fn by_halves(store: &[u8], order: &[u16], version: u32, place: Place) -> usize
    requires { (size_right Form.Counted (length store.now) ≡ true) × Ordered (store_of store.now).slots order.now (length order.now) × Proper place }
    ensures { First (store_of store.now).slots order.now (length order.now) (node_key version (place_of place)) result }
{
    let mut lo = 0;
    let mut hi = order.len();
    // Halving, which is no count.
    while lo < hi {
        let middle = lo + (hi - lo) / 2;
        if is_before(store, order, middle, version, place) {
            lo = middle + 1;
        } else {
            hi = middle;
        }
    }
    lo
}
