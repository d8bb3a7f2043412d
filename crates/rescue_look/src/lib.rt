// The records of a source of any contents, document 02, request 2026-08: the lowest slot of a node, the children that its record names, and
// whether one of them is linked.
#![tactic(auto)]

ghost use Rattle.std.specs.Prelude.{◌≡◌, true, length};
ghost use Rattle.place.specs.Place.{place_of, Proper};
ghost use Rattle.layout.specs.Headers.{size_right};
ghost use Rattle.layout.specs.Stores.{store_of, Has};
ghost use Rattle.ordered.specs.Ordered.{Guide};
ghost use Rattle.rescue_look.specs.Look.{LowestIn, Inside, KidSays, WeighsSay, tied_at};

use agree::holds_node;
use check_counts::weight_at;
use hash::{hash_at, same_hash};
use order_find::find_by;
use place::Place;
use read_hash::record_hash;
use slots::child_hash;
use slots_form::is_leaf;
use store::{child_count_at, child_version_at, slot_count, slot_of};
use terms::Form;

// The lowest slot that holds the node (version, place), by a scan; version 0 is no node.
fn scanned(source: &[u8], version: u32, place: Place) -> Option<usize>
    requires { (size_right Form.Counted (length source.now) ≡ true) × Proper place }
    ensures { LowestIn (store_of source.now).slots version (place_of place) result }
{
    if version == 0 {
        return None;
    }
    for i in 0..slot_count(Form::Counted, source) {
        if holds_node(Form::Counted, source, i, version, place) {
            return Some(i);
        }
    }
    None
}

// The same by a table to find by, or by a scan where it has no entries.
pub fn lowest(source: &[u8], order: &[u16], version: u32, place: Place) -> Option<usize>
    requires { (size_right Form.Counted (length source.now) ≡ true) × Proper place × Guide (store_of source.now).slots order.now (length order.now) }
    ensures { LowestIn (store_of source.now).slots version (place_of place) result }
{
    if order.is_empty() {
        return scanned(source, version, place);
    }
    // The scan tells at once that version 0 is no node, the table by a whole search.
    if version == 0 {
        return scanned(source, version, place);
    }
    find_by(source, order, version, place)
}

// The version of the child that a record names on a side; 0 where there is no record or no child.
pub fn kid(source: &[u8], found: Option<usize>, right: bool) -> u32
    requires { Inside source.now found }
    ensures { KidSays source.now found right result }
{
    let Some(i) = found else {
        return 0;
    };
    if is_leaf(slot_of(Form::Counted, source, i)) {
        return 0;
    }
    child_version_at(Form::Counted, source, i, right)
}

// Whether the count on a side of the inner record in slot i is that of the leaves at the child found, 0 for none.
fn weighs(source: &[u8], i: usize, right: bool, found: Option<usize>) -> bool
    requires { Has Form.Counted source.now i × Inside source.now found }
    ensures { WeighsSay source.now i right found result }
{
    let count = child_count_at(Form::Counted, source, i, right);
    let Some(j) = found else {
        return count == 0;
    };
    count as u64 == weight_at(Form::Counted, source, j)
}

// Whether the child on a side of the inner record in slot i is missing, or found at its place with the stored hash and no lone leaf,
// and the count on that side is right.
pub fn linked(source: &[u8], order: &[u16], i: usize, right: bool, place: Place) -> bool
    requires { Has Form.Counted source.now i × Proper place × Guide (store_of source.now).slots order.now (length order.now) }
    ensures { result ≡ tied_at source.now i right (place_of place) }
{
    let version = child_version_at(Form::Counted, source, i, right);
    let other = child_version_at(Form::Counted, source, i, !right);
    let hash = hash_at(child_hash(slot_of(Form::Counted, source, i), right), 0);
    let found = lowest(source, order, version, place);
    if !weighs(source, i, right, found) {
        return false;
    }
    let Some(j) = found else {
        return version == 0;
    };
    let slot = slot_of(Form::Counted, source, j);
    if !same_hash(record_hash(slot), hash) {
        return false;
    }
    if is_leaf(slot) {
        return other != 0;
    }
    true
}
