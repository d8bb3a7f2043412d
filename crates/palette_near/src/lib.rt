// Where the records on the ways of a list's keys stand by a lent table, found once for the call. What stays names only slots that a read by the table finds too.
#![tactic(auto)]

ghost use Rattle.std.specs.Prelude.{◌≡◌, true, ◌≤◌, ◌<◌, length};
ghost use Rattle.place.specs.Place.{Proper};
ghost use Rattle.layout.specs.Sizes.{room_of};
ghost use Rattle.layout.specs.Headers.{size_right};
ghost use Rattle.layout.specs.Stores.{store_of};
ghost use Rattle.read_step.specs.Walk.{Slotted};
ghost use Rattle.read_near.specs.Near.{Led};
ghost use Rattle.palette_near.specs.Near.{LedBy};

use index_sights::look_by;
use place::{Place, child_place, key_bit};
use read_step::{Seen, child_version, root};
use sights::Sight;
use slots_form::is_leaf;
use store::{slot_count, slot_of, wide};
use terms::Form;

// A key is 32 bytes.
const KEY_SIZE: usize = 32;

// Where the guess for a side of slot i stands.
fn guess_at(i: usize, right: bool) -> usize
    requires { i < 16384 }
    ensures { result < 32768 }
{
    if right {
        return 2 * i + 1;
    }
    2 * i
}

// The slot in which a read by the table finds a version and place, one higher; 0 where it finds none.
fn found_by(store: &[u8], index: &[u32], version: u32, place: Place) -> usize
    requires { (size_right Form.Counted (length store.now) ≡ true) × Proper place }
    ensures { LedBy store.now index.now result }
{
    let sight = look_by(store, index, version, place);
    let Sight::Matches(j) = sight else {
        return 0;
    };
    j + 1
}

// The slot of the child on a side of slot i, one higher, as guessed already, or else as found and kept; 0 where there is none. The place is the child's.
fn child_slot(
    store: &[u8],
    index: &[u32],
    kids: &mut [u16; 32768],
    i: usize,
    right: bool,
    place: Place,
) -> usize
    requires { Slotted store.now i place × Led (store_of store.now) index.now kids.old }
    ensures { Led (store_of store.now) index.now kids.new }
{
    let k = guess_at(i, right);
    let guess = wide(kids[k]);
    if guess != 0 {
        return guess;
    }
    let version = child_version(store, i, right);
    if version == 0 {
        return 0;
    }
    let found = found_by(store, index, version, place);
    kids[k] = found as u16;
    found
}

// Follows a key from the inner node in slot i, the root's.
fn follow(store: &[u8], index: &[u32], kids: &mut [u16; 32768], n: usize, root: usize, key: &[u8])
    requires { (size_right Form.Counted (length store.now) ≡ true) × (n ≡ room_of Form.Counted (length store.now)) × (length key.now ≡ 32) × Led (store_of store.now) index.now kids.old }
    ensures { Led (store_of store.now) index.now kids.new }
{
    let mut i = root;
    let mut place = Place::top();
    // Down the tree, which is no count: the place grows by itself.
    while place.count < 256 {
        if n <= i {
            return;
        }
        if is_leaf(slot_of(Form::Counted, store, i)) {
            return;
        }
        let side = key_bit(key, place.count);
        place = child_place(place, side);
        let next = child_slot(store, index, kids, i, side, place);
        if next == 0 {
            return;
        }
        i = next - 1;
    }
}

// Follows each key of a list.
pub fn follow_all(store: &[u8], index: &[u32], kids: &mut [u16; 32768], version: u32, keys: &[u8])
    requires { (size_right Form.Counted (length store.now) ≡ true) × (length keys.now ≤ 8192) × Led (store_of store.now) index.now kids.old }
    ensures { Led (store_of store.now) index.now kids.new }
{
    let n = slot_count(Form::Counted, store);
    let seen = root(store, index, version);
    let Seen::Inner(i) = seen else {
        return;
    };
    for key in keys.chunks_exact(KEY_SIZE) {
        follow(store, index, kids, n, i, key);
    }
}
