// The slots that hold a record's node, document 01, 'Sound', and whether a child of it is found.
#![tactic(auto)]

ghost use Rattle.std.specs.Prelude.{◌≡◌, true, ◌||◌, length, eqb};
ghost use Rattle.meaning.specs.Store.{find};
ghost use Rattle.local.specs.Test.{total, by_record, is_found};
ghost use Rattle.place.specs.Place.{place_of, Proper};
ghost use Rattle.layout.specs.Headers.{size_right};
ghost use Rattle.layout.specs.Stores.{store_in, slot_no, Has};
ghost use Rattle.check_kin.specs.Kin.{count_node};

use agree::holds_node;
use lookup::find;
use place::Place;
use store::slot_count;
use terms::Form;

// 1 where slot j holds the node (version, place), else 0.
fn holder(form: Form, store: &[u8], j: usize, version: u32, place: Place) -> usize
    requires { Has form store.now j × Proper place }
    ensures { result ≡ by_record 0 (count_node version (place_of place)) (slot_no form j store.now) }
{
    if holds_node(form, store, j, version, place) {
        return 1;
    }
    0
}

// How many slots hold the node (version, place).
pub fn holders(form: Form, store: &[u8], version: u32, place: Place) -> usize
    requires { (size_right form (length store.now) ≡ true) × Proper place }
    ensures { result ≡ total (by_record 0 (count_node version (place_of place))) (store_in form store.now).slots }
{
    let n = slot_count(form, store);
    let mut count = 0;
    for j in 0..n {
        count += holder(form, store, j, version, place);
    }
    count
}

// Whether a child is missing or found.
pub fn child_found(form: Form, store: &[u8], version: u32, place: Place) -> bool
    requires { (size_right form (length store.now) ≡ true) × Proper place }
    ensures { result ≡ (eqb version 0 || is_found (find version (place_of place) (store_in form store.now).slots)) }
{
    if version == 0 {
        return true;
    }
    match find(form, store, version, place) {
        Some(_) => true,
        None => false,
    }
}
