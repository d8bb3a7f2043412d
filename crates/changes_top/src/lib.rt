// What two trees are compared by at a place, read from lent memory, document 02, request 2026-01: the node there, or a leaf from further up
// whose key goes there.
#![tactic(auto)]

ghost use Rattle.std.specs.Prelude.{◌≡◌, true, [], ◌<◌, length};
ghost use Rattle.meaning.specs.Store.{tree_at_version};
ghost use Rattle.place.specs.Place.{Proper, Stands, Grown};
ghost use Rattle.layout.specs.Headers.{size_right};
ghost use Rattle.layout.specs.Stores.{store_of, SlotWithin};
ghost use Rattle.changed.specs.Walk.{under};
ghost use Rattle.changes_guess.specs.Apart.{Apart};
ghost use Rattle.changes_top.specs.Tops.{top_in, tree_here, top_tree, TopRight, TopSays, DeeperSays};

use changes_guess::{find_near, guess_of};
use lookup_root::find_root;
use place::{Place, key_bit};
use slots::key_of;
use slots_form::is_leaf;
use store::{child_version_at, slot_of, version_at};
use terms::Form;

#[derive(Clone, Copy)]
pub enum Top {
    Nothing,
    // The slot of a leaf.
    Leaf(usize),
    // An inner node, with its slot and the versions of its children.
    Inner {
        slot: usize,
        version: u32,
        left: u32,
        right: u32,
    },
}

// The node whose record is in slot i.
fn top_in(store: &[u8], i: usize) -> Top
    requires { SlotWithin Form.Counted i store.now }
    ensures { result ≡ top_in i store.now }
{
    let slot = slot_of(Form::Counted, store, i);
    if is_leaf(slot) {
        return Top::Leaf(i);
    }
    let version = version_at(Form::Counted, store, i);
    let left = child_version_at(Form::Counted, store, i, false);
    let right = child_version_at(Form::Counted, store, i, true);
    Top::Inner {
        slot: i,
        version,
        left,
        right,
    }
}

// The root of a version, at the empty place.
pub fn root_top(store: &[u8], version: u32, top: Place) -> Top
    requires { (size_right Form.Counted (length store.now) ≡ true) × Stands [] 0 top }
    ensures { TopSays store.now top (tree_at_version (store_of store.now) version) result }
{
    let found = find_root(Form::Counted, store, version);
    let Some(i) = found else {
        return Top::Nothing;
    };
    top_in(store, i)
}

// The child of a version at its place, which is guessed to stand in slot i; version 0 is no child.
fn top_at(store: &[u8], i: usize, version: u32, place: Place) -> Top
    requires { ((size_right Form.Counted (length store.now) ≡ true) × Apart (store_of store.now)) × Proper place }
    ensures { TopSays store.now place (tree_here store.now place version) result }
{
    if version == 0 {
        return Top::Nothing;
    }
    let found = find_near(store, i, version, place);
    let Some(j) = found else {
        return Top::Nothing;
    };
    top_in(store, j)
}

// What is compared at a longer place, below a place with this top; `guess` has a slot for each child of each slot.
pub fn below(
    store: &[u8],
    guess: &[u16; 32768],
    place: Place,
    top: Top,
    right: bool,
    longer: Place,
) -> Top
    requires { ((size_right Form.Counted (length store.now) ≡ true) × Apart (store_of store.now)) × (Proper place × (place.count < 256)) × TopRight store.now place top × Grown right place longer }
    ensures { TopSays store.now longer (under place.count right (top_tree store.now place top)) result }
{
    match top {
        Top::Nothing => Top::Nothing,
        Top::Leaf(i) => {
            if key_bit(key_of(slot_of(Form::Counted, store, i)), place.count) == right {
                return top;
            }
            Top::Nothing
        }
        Top::Inner {
            slot: i,
            version: _,
            left: l,
            right: r,
        } => {
            if right {
                return top_at(store, guess_of(guess, i, true), r, longer);
            }
            top_at(store, guess_of(guess, i, false), l, longer)
        }
    }
}

// Whether a comparison goes no deeper: the same record, or no inner node.
pub fn no_deeper(first: Top, second: Top) -> bool
    ensures { DeeperSays first second result }
{
    let Top::Inner {
        slot: _,
        version: v,
        left: _,
        right: _,
    } = first
    else {
        let Top::Inner {
            slot: _,
            version: _,
            left: _,
            right: _,
        } = second
        else {
            return true;
        };
        return false;
    };
    let Top::Inner {
        slot: _,
        version: w,
        left: _,
        right: _,
    } = second
    else {
        return false;
    };
    v == w
}
