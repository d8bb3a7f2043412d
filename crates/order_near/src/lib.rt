// The first entry of an ordered table that isn't before a node, where it was guessed: a look at it and at the one before it says whether it is.
#![tactic(auto)]

ghost use Rattle.std.specs.Prelude.{◌≡◌, true, length};
ghost use Rattle.place.specs.Place.{place_of, Proper};
ghost use Rattle.layout.specs.Headers.{size_right};
ghost use Rattle.layout.specs.Stores.{store_of};
ghost use Rattle.check_pass.specs.Passes.{Passed};
ghost use Rattle.ordered.specs.Ordered.{node_key, Ordered};
ghost use Rattle.order_halves.specs.First.{First};

use order_halves::{by_halves, is_before};
use place::Place;
use terms::Form;

// Whether entry k is the first that isn't before a version and place.
fn is_first(store: &[u8], order: &[u16], k: usize, version: u32, place: Place) -> bool
    requires { (size_right Form.Counted (length store.now) ≡ true) × Ordered (store_of store.now).slots order.now (length order.now) × Proper place }
    ensures { Passed result (First (store_of store.now).slots order.now (length order.now) (node_key version (place_of place)) k) }
{
    if k >= order.len() {
        return false;
    }
    if is_before(store, order, k, version, place) {
        return false;
    }
    if k == 0 {
        return true;
    }
    is_before(store, order, k - 1, version, place)
}

// The first entry that isn't before a version and place: `near`, where a look says so, else by halves.
pub fn first_near(store: &[u8], order: &[u16], near: usize, version: u32, place: Place) -> usize
    requires { (size_right Form.Counted (length store.now) ≡ true) × Ordered (store_of store.now).slots order.now (length order.now) × Proper place }
    ensures { First (store_of store.now).slots order.now (length order.now) (node_key version (place_of place)) result }
{
    if is_first(store, order, near, version, place) {
        return near;
    }
    by_halves(store, order, version, place)
}
