// A parent and one of its children, found at once by a guess: whether the child stands in the slot that was guessed, and all that is said of it is
// right. Slots are read by single fields, since the own fields of all were looked at before.
#![tactic(auto)]

ghost use Rattle.std.specs.Prelude.{◌≡◌, ◌≤◌};
ghost use Rattle.place.specs.Place.{place_of, Proper};
ghost use Rattle.layout.specs.Stores.{store_in, Has};
ghost use Rattle.check_pass.specs.Passes.{Passed};
ghost use Rattle.check_seen.specs.Seen.{OwnAt};
ghost use Rattle.check_hash.specs.Known.{Stored, Known};
ghost use Rattle.check_child.specs.Child.{Ready, Fit, Node, Outlives, SideTied};

use agree::agrees;
use check_counts::count_fits;
use check_hash::hash_right;
use check_kin::{Kept, ends_before};
use check_seen::add;
use hash::Hash;
use layout::sizes::LEAF_KIND;
use place::{Place, child_place};
use store::{kind_at, retired_at, slot_count};
use terms::Form;

// What a parent says of each of its children: where it stands itself, its first kept version, the end of its life, and how many kept versions
// it lives at.
#[derive(Clone, Copy)]
pub struct Parent {
    pub up: Place,
    pub first: u32,
    pub ends: u64,
    pub life: u64,
}

// The link to a child on one side: its number, the child's version and stored hash, the version of the other child, and the leaves
// that are counted there.
#[derive(Clone, Copy)]
pub struct Link {
    pub right: bool,
    pub number: u16,
    pub version: u32,
    pub hash: Hash,
    pub other: u32,
    pub count: u32,
}

// Whether slot c, which holds a record or is free, holds the node of a version at a place.
fn is_node(form: Form, store: &[u8], c: usize, version: u32, place: Place) -> bool
    requires { Has form store.now c × OwnAt (store_in form store.now) c × (1 ≤ version) × Proper place }
    ensures { Passed result (Node form store.now c version (place_of place)) }
{
    agrees(form, store, c, version, place)
}

// Whether the record in slot c lives to an end at least, and is no lone leaf beside a child of version `other`.
fn outlives(form: Form, store: &[u8], c: usize, latest: u32, ends: u64, other: u32) -> bool
    requires { Has form store.now c × ((store_in form store.now).latest ≡ latest) }
    ensures { Passed result (Outlives form store.now c ends other) }
{
    if ends_before(latest, retired_at(form, store, c)) < ends {
        return false;
    }
    if other != 0 {
        return true;
    }
    kind_at(form, store, c) != LEAF_KIND
}

// Whether the child of a link is missing, or stands in slot c and all that is said of it is right; then its parent's life is added there. The
// slot c is a guess of anyone's.
pub fn tie_link(
    form: Form,
    store: &[u8],
    kept: Kept,
    c: usize,
    parent: Parent,
    link: Link,
    known: &mut [u16; 16384],
    sums: &mut [u32; 16384],
) -> bool
    requires { Ready form store.now kept × Fit parent × Stored form store.now link.number link.hash × Known form store.now known.old }
    ensures known { Known form store.now known.new }
    ensures passed { Passed result (SideTied form store.now parent link sums.old sums.new) }
{
    let version = link.version;
    if version == 0 {
        return link.count == 0;
    }
    let n = slot_count(form, store);
    if n <= c {
        return false;
    }
    if parent.first < version {
        return false;
    }
    let up = parent.up;
    if !is_node(form, store, c, version, child_place(up, link.right)) {
        return false;
    }
    if !outlives(form, store, c, kept.latest, parent.ends, link.other) {
        return false;
    }
    if !hash_right(form, store, c, link.number, link.hash, known) {
        return false;
    }
    if !count_fits(form, store, c, link.count) {
        return false;
    }
    add(sums, c, parent.life);
    true
}
