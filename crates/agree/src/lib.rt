// Whether the fields of a slot agree with a node, document 02, 2026-07: version, bit count and bits, as they stand. A slot in form that agrees holds
// the node.
#![tactic(auto)]

ghost use Rattle.std.specs.Prelude.{◌≡◌};
ghost use Rattle.meaning.specs.Sight.{agrees};
ghost use Rattle.place.specs.Place.{place_of, Proper};
ghost use Rattle.layout.specs.Stores.{slot_in, slot_no, Has};
ghost use Rattle.agree.specs.Holding.{node_here};

use hash::{hash_at, same_hash};
use lookup::holds_record;
use place::Place;
use slots::bits_of;
use store::{count_at, slot_of, version_at};
use terms::Form;

// Whether the fields of slot i agree with the node (version, place): the cheap fields first.
pub fn agrees(form: Form, store: &[u8], i: usize, version: u32, place: Place) -> bool
    requires { Has form store.now i × Proper place }
    ensures { result ≡ agrees version (place_of place) (slot_in form i store.now) }
{
    if version_at(form, store, i) != version {
        return false;
    }
    if count_at(form, store, i) as usize != place.count {
        return false;
    }
    let bits = place.bits;
    same_hash(
        hash_at(bits_of(slot_of(form, store, i)), 0),
        hash_at(&bits, 0),
    )
}

// Whether slot i holds the node (version, place).
pub fn holds_node(form: Form, store: &[u8], i: usize, version: u32, place: Place) -> bool
    requires { Has form store.now i × Proper place }
    ensures { result ≡ node_here version (place_of place) (slot_no form i store.now) }
{
    if !agrees(form, store, i, version, place) {
        return false;
    }
    holds_record(slot_of(form, store, i))
}
