// A look at a slot in the search for a node by a table, document 02, request 2026-05: a slot that isn't in form counts as too great.
#![tactic(auto)]

ghost use Rattle.std.specs.Prelude.{◌≡◌};
ghost use Rattle.indexed.specs.Index.{look_at, node_look};
ghost use Rattle.place.specs.Place.{place_of, Proper};
ghost use Rattle.layout.specs.Stores.{slot_no, Has};
ghost use Rattle.index_node.specs.Looks.{look_says};

use lookup::holds_record;
use place::{Place, before};
use slots::bits_of;
use std::cmp::Ordering;
use store::{count_at, slot_of, version_at};
use terms::Form;

// How slot i stands to a version and place: the bits first, then the bit count, then the version. Greater bits are too great in form or not, so half of the
// looks need not ask whether the slot is in form.
pub fn look_node(store: &[u8], i: usize, version: u32, place: Place) -> Ordering
    requires { Has Form.Counted store.now i × Proper place }
    ensures { result ≡ look_says (look_at (node_look version (place_of place)) (slot_no Form.Counted i store.now)) }
{
    let slot = slot_of(Form::Counted, store, i);
    let bits = place.bits;
    let count = place.count;
    if before(&bits, bits_of(slot)) {
        return Ordering::Greater;
    }
    if !holds_record(slot) {
        return Ordering::Greater;
    }
    if before(bits_of(slot), &bits) {
        return Ordering::Less;
    }
    let its = count_at(Form::Counted, store, i) as usize;
    its.cmp(&count)
        .then_with(|| version_at(Form::Counted, store, i).cmp(&version))
}
