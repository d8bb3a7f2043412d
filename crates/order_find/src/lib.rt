// Finding a node by an ordered table: the first entry that isn't before the node is guessed or searched for by halves, so of slots with the same node the lowest is found.
#![tactic(auto)]

ghost use Rattle.std.specs.Prelude.{◌≡◌, true, length};
ghost use Rattle.place.specs.Place.{place_of, Proper};
ghost use Rattle.layout.specs.Headers.{size_right};
ghost use Rattle.layout.specs.Stores.{store_of};
ghost use Rattle.lookup.specs.Lookup.{FoundIn};
ghost use Rattle.ordered.specs.Ordered.{node_key, Ordered};
ghost use Rattle.order_halves.specs.First.{First};
ghost use Rattle.order_find.specs.Finds.{NoLower};

use order_look::compared;
use order_near::first_near;
use place::Place;
use std::cmp::Ordering;
use store::{version_at, wide};
use terms::Form;

// A guess where the root of a version is, right where numbers have no gaps: roots stand first in the order, by version. For another place none.
fn root_guess(store: &[u8], order: &[u16], version: u32, place: Place) -> usize
    requires { (size_right Form.Counted (length store.now) ≡ true) × Ordered (store_of store.now).slots order.now (length order.now) × Proper place }
{
    if place.count != 0 {
        return order.len();
    }
    if order.is_empty() {
        return order.len();
    }
    let oldest = version_at(Form::Counted, store, wide(order[0]));
    if version < oldest {
        return order.len();
    }
    (version - oldest) as usize
}

// The first entry that isn't before a version and place.
pub fn first(store: &[u8], order: &[u16], version: u32, place: Place) -> usize
    requires { (size_right Form.Counted (length store.now) ≡ true) × Ordered (store_of store.now).slots order.now (length order.now) × Proper place }
    ensures { First (store_of store.now).slots order.now (length order.now) (node_key version (place_of place)) result }
{
    let near = root_guess(store, order, version, place);
    first_near(store, order, near, version, place)
}

// The lowest slot that matches a version and place: that of the first entry that isn't before them, or none.
pub fn find_first(
    store: &[u8],
    order: &[u16],
    k: usize,
    version: u32,
    place: Place,
) -> Option<usize>
    requires { (size_right Form.Counted (length store.now) ≡ true) × Ordered (store_of store.now).slots order.now (length order.now) × Proper place × First (store_of store.now).slots order.now (length order.now) (node_key version (place_of place)) k }
    ensures { FoundIn (store_of store.now).slots version (place_of place) result × NoLower (store_of store.now).slots version (place_of place) result }
{
    if order.len() <= k {
        return None;
    }
    let i = wide(order[k]);
    let bits = place.bits;
    let count = place.count;
    let stands = compared(store, i, count, &bits, version);
    match stands {
        Ordering::Less => None,
        Ordering::Greater => None,
        Ordering::Equal => Some(i),
    }
}

// The lowest slot that matches a version and place, as `find` finds it, by a table that names the slots in form in their order.
pub fn find_by(store: &[u8], order: &[u16], version: u32, place: Place) -> Option<usize>
    requires { (size_right Form.Counted (length store.now) ≡ true) × Ordered (store_of store.now).slots order.now (length order.now) × Proper place }
    ensures { FoundIn (store_of store.now).slots version (place_of place) result × NoLower (store_of store.now).slots version (place_of place) result }
{
    let k = first(store, order, version, place);
    find_first(store, order, k, version, place)
}
