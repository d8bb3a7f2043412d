// The leaves below the children of a record, 2026-09, by what the records found there say: 1 for a leaf, the counts summed for an inner
// record, 0 for none. The plain form has no counts.
#![tactic(auto)]

ghost use Rattle.std.specs.Prelude.{◌≡◌, true, ◌<◌, ◌≤◌, length};
ghost use Rattle.terms.specs.Bits.{left, right, longer};
ghost use Rattle.terms.specs.Records.{Record, used, tally};
ghost use Rattle.meaning.specs.Store.{find};
ghost use Rattle.meaning.specs.Counting.{weight};
ghost use Rattle.meaning.specs.Local.{weighed};
ghost use Rattle.local.specs.Test.{counts_are};
ghost use Rattle.place.specs.Place.{place_of, Proper};
ghost use Rattle.layout.specs.Headers.{size_right};
ghost use Rattle.layout.specs.Stores.{store_in, slot_no, Has};
ghost use Rattle.check_counts.specs.Counts.{FitsAt};

use layout::sizes::LEAF_KIND;
use lookup::find;
use place::Place;
use store::{child_count_at, kind_at};
use terms::Form;

// The leaves at the record in slot i.
pub fn weight_at(form: Form, store: &[u8], i: usize) -> u64
    requires { Has form store.now i }
    ensures { ((q : Record) → slot_no form i store.now ≡ used q → result ≡ weight q) × (result ≤ 8589934590) }
{
    if kind_at(form, store, i) == LEAF_KIND {
        return 1;
    }
    let lefts = child_count_at(form, store, i, false) as u64;
    let rights = child_count_at(form, store, i, true) as u64;
    lefts + rights
}

// Whether a count is that of the leaves at the record in slot i; the plain form has none.
pub fn count_fits(form: Form, store: &[u8], i: usize, count: u32) -> bool
    requires { Has form store.now i }
    ensures { result ≡ true → FitsAt form store.now i count }
{
    match form {
        Form::Plain => true,
        Form::Counted => count as u64 == weight_at(form, store, i),
    }
}

// The leaves at the node of a version and place, 0 where it is not found.
pub fn weigh(form: Form, store: &[u8], version: u32, place: Place) -> u64
    requires { (size_right form (length store.now) ≡ true) × Proper place }
    ensures { result ≡ weighed (find version (place_of place) (store_in form store.now).slots) }
{
    match find(form, store, version, place) {
        Some(i) => {
            let n = weight_at(form, store, i);
            n
        }
        None => 0,
    }
}

// Whether the counts of a record at a place are those of its children of these versions.
pub fn counts_right(
    form: Form,
    store: &[u8],
    place: Place,
    a: u32,
    b: u32,
    lefts: u32,
    rights: u32,
) -> bool
    requires { (size_right form (length store.now) ≡ true) × Proper place × (place.count < 256) }
    ensures { result ≡ counts_are form (tally lefts rights) (tally (weighed (find a (longer left (place_of place)) (store_in form store.now).slots)) (weighed (find b (longer right (place_of place)) (store_in form store.now).slots))) }
{
    match form {
        Form::Plain => true,
        Form::Counted => {
            if lefts as u64 != weigh(form, store, a, place.left()) {
                return false;
            }
            rights as u64 == weigh(form, store, b, place.right())
        }
    }
}
