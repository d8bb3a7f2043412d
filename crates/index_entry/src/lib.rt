// A look at an entry of a table, for a node or for the root of a version, document 02, request 2026-05: an entry that names no slot in form counts as too great.
#![tactic(auto)]

ghost use Rattle.std.specs.Prelude.{◌≡◌, true, length, get_or};
ghost use Rattle.terms.specs.Records.{free};
ghost use Rattle.indexed.specs.Index.{look_at, root_look};
ghost use Rattle.place.specs.Place.{place_of, Proper};
ghost use Rattle.layout.specs.Sizes.{room_of};
ghost use Rattle.layout.specs.Headers.{size_right};
ghost use Rattle.layout.specs.Stores.{store_of, slot_no, Has};
ghost use Rattle.index_node.specs.Looks.{look_says};
ghost use Rattle.index_entry.specs.Entries.{look_for};

use index_node::look_node;
use lifetime::covers;
use lookup::holds_record;
use place::Place;
use std::cmp::Ordering;
use store::{count_at, retired_at, slot_of, version_at};
use terms::Form;

// How slot i stands to the root of a version: other places and later versions are too great, a root retired by then too small.
fn look_root(store: &[u8], i: usize, version: u32) -> Ordering
    requires { Has Form.Counted store.now i }
    ensures { result ≡ look_says (look_at (root_look version) (slot_no Form.Counted i store.now)) }
{
    if !holds_record(slot_of(Form::Counted, store, i)) {
        return Ordering::Greater;
    }
    if count_at(Form::Counted, store, i) != 0 {
        return Ordering::Greater;
    }
    let from = version_at(Form::Counted, store, i);
    if version < from {
        return Ordering::Greater;
    }
    if !covers(from, retired_at(Form::Counted, store, i), version) {
        return Ordering::Less;
    }
    Ordering::Equal
}

// A look for a root or for a node at an entry, which may name no slot.
pub fn look_entry(
    store: &[u8],
    n: usize,
    entry: usize,
    version: u32,
    place: Place,
    root: bool,
) -> Ordering
    requires { (size_right Form.Counted (length store.now) ≡ true) × (n ≡ room_of Form.Counted (length store.now)) × Proper place }
    ensures { result ≡ look_says (look_at (look_for root version (place_of place)) (get_or (store_of store.now).slots entry free)) }
{
    if n <= entry {
        return Ordering::Greater;
    }
    if root {
        return look_root(store, entry, version);
    }
    look_node(store, entry, version, place)
}
