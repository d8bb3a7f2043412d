// What finding a node in lent memory tells apart, document 02, 2026-07: a match, nothing, or a spoilt slot whose fields agree.
#![tactic(auto)]

ghost use Rattle.std.specs.Prelude.{ℕ, ◌≡◌, true, length};
ghost use Rattle.meaning.specs.Sight.{agrees, agrees_root, root_sight, node_sight};
ghost use Rattle.place.specs.Place.{place_of, Proper};
ghost use Rattle.layout.specs.Sizes.{slot_size};
ghost use Rattle.layout.specs.Headers.{size_right};
ghost use Rattle.layout.specs.Slots.{slot_of};
ghost use Rattle.layout.specs.Stores.{store_of, slot_no, Has};
ghost use Rattle.sights.specs.Sights.{spoilt_by, is_spoilt, Sighted, SightedBy};

use agree::agrees;
use fields::all_zero;
use lifetime::covers;
use lookup::{find, holds_record};
use lookup_root::find_root;
use place::Place;
use slots::bits_of;
use store::{count_at, retired_at, slot_count, slot_of, version_at};
use terms::Form;

#[derive(Clone, Copy)]
pub enum Sight {
    // The lowest slot in form that matches.
    Matches(usize),
    Nothing,
    // No slot in form matches; the lowest spoilt slot whose fields agree.
    Spoilt(usize),
}

// What is sighted: the slot that a search found, else the lowest one that a test says is spoilt with fields that agree, else nothing.
fn sighted<F: Fn(usize) -> bool>(store: &[u8], found: Option<usize>, test: F) -> Sight
    requires size { size_right Form.Counted (length store.now) ≡ true }
    requires each { (i : ℕ) → Has Form.Counted store.now i → F.pre test i }
    ensures { SightedBy store.now found (F.post test) result }
{
    if let Some(i) = found {
        return Sight::Matches(i);
    }
    let n = slot_count(Form::Counted, store);
    for i in 0..n {
        if test(i) {
            return Sight::Spoilt(i);
        }
    }
    Sight::Nothing
}

// Whether a slot's bytes are neither free nor a record in form.
fn is_spoilt(s: &[u8]) -> bool
    requires { length s.now ≡ slot_size Form.Counted }
    ensures { result ≡ is_spoilt (slot_of s.now) }
{
    if holds_record(s) {
        return false;
    }
    !all_zero(s)
}

// Whether slot i is spoilt and its fields agree with the node (version, place).
fn node_spoilt(store: &[u8], i: usize, version: u32, place: Place) -> bool
    requires { Has Form.Counted store.now i × Proper place }
    ensures { result ≡ spoilt_by (agrees version (place_of place)) (slot_no Form.Counted i store.now) }
{
    if !agrees(Form::Counted, store, i, version, place) {
        return false;
    }
    is_spoilt(slot_of(Form::Counted, store, i))
}

// What is found of a version and place.
pub fn look(store: &[u8], version: u32, place: Place) -> Sight
    requires { (size_right Form.Counted (length store.now) ≡ true) × Proper place }
    ensures { Sighted (store_of store.now).slots (node_sight (store_of store.now) version (place_of place)) result }
{
    let found = find(Form::Counted, store, version, place);
    sighted(store, found, |i| node_spoilt(store, i, version, place))
}

// Whether slot i is spoilt and agrees with a root by empty place and a lifetime that covers a version: the cheap fields first.
fn root_spoilt(store: &[u8], i: usize, version: u32) -> bool
    requires { Has Form.Counted store.now i }
    ensures { result ≡ spoilt_by (agrees_root version) (slot_no Form.Counted i store.now) }
{
    if count_at(Form::Counted, store, i) != 0 {
        return false;
    }
    if !covers(
        version_at(Form::Counted, store, i),
        retired_at(Form::Counted, store, i),
        version,
    ) {
        return false;
    }
    let slot = slot_of(Form::Counted, store, i);
    if !all_zero(bits_of(slot)) {
        return false;
    }
    is_spoilt(slot)
}

// What is found of the root of a version.
pub fn look_root(store: &[u8], version: u32) -> Sight
    requires { size_right Form.Counted (length store.now) ≡ true }
    ensures { Sighted (store_of store.now).slots (root_sight (store_of store.now) version) result }
{
    let found = find_root(Form::Counted, store, version);
    sighted(store, found, |i| root_spoilt(store, i, version))
}
