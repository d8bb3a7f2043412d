// What a read sees at a child, where a call has guessed for itself in which slot each child stands. A guess is looked at before it is believed, and where
// it is wrong the child is found as without it.
#![tactic(auto)]

ghost use Rattle.std.specs.Prelude.{◌≡◌, ◌<◌, get_or};
ghost use Rattle.place.specs.Place.{place_of};
ghost use Rattle.layout.specs.Stores.{store_of};
ghost use Rattle.read_step.specs.Walk.{kid_in, seen_below, Sees, Slotted};
ghost use Rattle.read_near.specs.Near.{Led};

use guess::holds;
use place::Place;
use read_step::{Seen, child, child_version, seen_in};

// Where the guess for a side of slot i stands.
fn guess_at(i: usize, right: bool) -> usize
    requires { i < 16384 }
    ensures { result < 32768 }
{
    if right {
        return 2 * i + 1;
    }
    2 * i
}

// The guess there, one higher than its slot; 0 where there is none.
fn guess_in(kids: &[u16], k: usize) -> usize
    ensures { result ≡ get_or kids.now k 0 }
{
    if kids.len() <= k {
        return 0;
    }
    kids[k] as usize
}

// What is seen on a side of the inner node in slot i, as `child` sees it; the place is the child's.
pub fn child_near(
    store: &[u8],
    index: &[u32],
    kids: &[u16],
    i: usize,
    right: bool,
    place: Place,
) -> Seen
    requires { Slotted store.now i place × Led (store_of store.now) index.now kids.now }
    ensures { Sees store.now index.now (place_of place) (seen_below store.now index.now (place_of place) (kid_in i store.now right)) result }
{
    let version = child_version(store, i, right);
    if version == 0 {
        return Seen::Gap;
    }
    let guess = guess_in(kids, guess_at(i, right));
    if guess == 0 {
        return child(store, index, i, right, place);
    }
    let j = guess - 1;
    if !holds(store, j, version, place) {
        return child(store, index, i, right, place);
    }
    seen_in(store, j, place)
}
