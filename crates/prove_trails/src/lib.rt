// The walk that remembers its way, and the search for a neighbour, document 01, 'Reading and proving'.
#![tactic(auto)]

ghost use Rattle.std.specs.Prelude.{◌≡◌, true, length};
ghost use Rattle.layout.specs.Headers.{size_right};
ghost use Rattle.read_near.specs.Near.{Led};
ghost use Rattle.layout.specs.Stores.{store_of};
ghost use Rattle.prove_trails.specs.Trails.{TrailIn, AtInner, Further, Started, ForkIn, fork_says, fork_on, Walks};
ghost use Rattle.prove_trails.specs.Searches.{sought_of, Finds, descent_says, WalkedIn, neighbour_says};

use place::{Place, child_place, key_bit};
use prove_paths::{Path, Sought, Way};
use prove_turns::{beyond, deepest, towards};
use read_near::child_near;
use read_step::{Seen, Trouble, root};
use slots::key_of;
use store::slot_of;
use terms::Form;

// The way so far: what is seen at its end, the slots of the inner nodes passed, the root's first, and the place of its end.
#[derive(Clone, Copy)]
pub struct Trail {
    pub seen: Seen,
    pub slots: [u16; 256],
    pub place: Place,
}

// Where a walk ended, with the place of the deepest fork towards each side.
#[derive(Clone, Copy)]
pub struct Walked {
    pub trail: Trail,
    pub left: Option<Place>,
    pub right: Option<Place>,
}

// At the root of a version.
fn start(store: &[u8], index: &[u32], version: u32) -> Trail
    requires { size_right Form.Counted (length store.now) ≡ true }
    ensures { Started store.now index.now version result }
{
    let seen = root(store, index, version);
    let place = Place::top();
    Trail {
        seen,
        slots: [0u16; 256],
        place,
    }
}

// One inner node further, that in slot i, to a side.
fn further(store: &[u8], index: &[u32], kids: &[u16], trail: Trail, i: usize, side: bool) -> Trail
    requires { AtInner store.now trail i × Led (store_of store.now) index.now kids.now }
    ensures { Further store.now index.now trail i side result }
{
    let mut slots = trail.slots;
    let here = trail.place;
    let depth = here.count;
    slots[depth] = i as u16;
    let place = child_place(here, side);
    let seen = child_near(store, index, kids, i, side, place);
    Trail { seen, slots, place }
}

// Walks by the key's bits from the root of a version to a leaf or a missing child, or until it is stopped.
pub fn walk(store: &[u8], index: &[u32], kids: &[u16], version: u32, key: &[u8]) -> Walked
    requires { (size_right Form.Counted (length store.now) ≡ true) × (length key.now ≡ 32) × Led (store_of store.now) index.now kids.now }
    ensures { Walks store.now index.now version key.now result }
{
    let mut trail = start(store, index, version);
    let mut left = None;
    let mut right = None;
    while let Seen::Inner(i) = trail.seen {
        let place = trail.place;
        let depth = place.count;
        let turn = key_bit(key, depth);
        left = deepest(store, left, place, i, turn, false);
        right = deepest(store, right, place, i, turn, true);
        trail = further(store, index, kids, trail, i, turn);
    }
    Walked { trail, left, right }
}

// A search's answer of a trail that ends in slot i.
fn answer(trail: Trail, way: Way, i: usize) -> Sought
    ensures { result ≡ sought_of trail way i }
{
    let slots = trail.slots;
    let place = trail.place;
    let path = Path {
        slots,
        place,
        at: i,
    };
    Sought { way, path }
}

// Descends from the end of a trail, to a side where it can, until a leaf.
fn descend(store: &[u8], index: &[u32], kids: &[u16], trail: Trail, side: bool) -> Sought
    requires { TrailIn store.now trail × Led (store_of store.now) index.now kids.now }
    ensures { Finds store.now (descent_says store.now index.now trail side) result }
{
    let mut here = trail;
    // Down the tree, which is no count.
    loop {
        let seen = here.seen;
        match seen {
            Seen::Inner(i) => {
                let turn = towards(store, i, side);
                here = further(store, index, kids, here, i, turn);
            }
            Seen::Leaf(i) => return answer(here, Way::Somebody, i),
            Seen::Gap => return answer(here, Way::Stopped(Trouble::Lost), 0),
            Seen::Stopped(trouble) => return answer(here, Way::Stopped(trouble), 0),
        }
    }
}

// Searches from a fork of a trail, where there is one.
fn from_fork(
    store: &[u8],
    index: &[u32],
    kids: &[u16],
    trail: Trail,
    fork: Option<Place>,
    side: bool,
) -> Sought
    requires { TrailIn store.now trail × ForkIn trail.place.count fork × Led (store_of store.now) index.now kids.now }
    ensures { Finds store.now (fork_says store.now index.now trail.slots side fork) result }
{
    let Some(place) = fork else {
        return answer(trail, Way::Nobody, 0);
    };
    let slots = trail.slots;
    let depth = place.count;
    let i = slots[depth] as usize;
    let back = Trail {
        seen: Seen::Inner(i),
        slots,
        place,
    };
    let next = further(store, index, kids, back, i, side);
    descend(store, index, kids, next, !side)
}

fn fork_towards(walked: Walked, side: bool) -> Option<Place>
    ensures { result ≡ fork_on side walked.left walked.right }
{
    if side {
        return walked.right;
    }
    walked.left
}

// The neighbour of a key on a side: the leaf at the end of its walk, if it is on that side; else from the fork.
pub fn neighbour(
    store: &[u8],
    index: &[u32],
    kids: &[u16],
    key: &[u8],
    walked: Walked,
    side: bool,
) -> Sought
    requires { WalkedIn store.now walked × Led (store_of store.now) index.now kids.now }
    ensures { Finds store.now (neighbour_says store.now index.now key.now walked side) result }
{
    let trail = walked.trail;
    let fork = fork_towards(walked, side);
    let seen = trail.seen;
    let Seen::Leaf(i) = seen else {
        return from_fork(store, index, kids, trail, fork, side);
    };
    if beyond(key_of(slot_of(Form::Counted, store, i)), key, side) {
        return answer(trail, Way::Somebody, i);
    }
    from_fork(store, index, kids, trail, fork, side)
}
