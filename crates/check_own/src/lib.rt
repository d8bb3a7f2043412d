// The first pass of the check: whether the own fields of each slot's record are right, by its bytes alone.
#![tactic(auto)]

ghost use Rattle.std.specs.Prelude.{◌≡◌, true};
ghost use Rattle.layout.specs.Slots.{is_leaf};
ghost use Rattle.layout.specs.Stores.{slot_in, store_in, Has};
ghost use Rattle.check_kin.specs.Kin.{Keeps};
ghost use Rattle.check_pass.specs.Passes.{Passed, Each};
ghost use Rattle.check_seen.specs.Seen.{OwnAt};
ghost use Rattle.check_own.specs.Own.{HeadOwn, LeafOwn};

use check_alone::life_right;
use check_kin::Kept;
use fields::all_zero;
use place::{begins, place_at};
use slots::{bits_of, key_of};
use slots_form::{is_inner, is_leaf};
use store::{count_at, retired_at, slot_count, slot_of, version_at};
use terms::Form;

// Whether version and life of slot i's record are right.
fn head_right(form: Form, store: &[u8], kept: Kept, i: usize) -> bool
    requires { Has form store.now i }
    ensures { Passed result (HeadOwn kept (slot_in form i store.now)) }
{
    let version = version_at(form, store, i);
    let retired = retired_at(form, store, i);
    if kept.latest < version {
        return false;
    }
    life_right(kept, version, retired)
}

// The same of a leaf, and whether its key begins with its place.
fn leaf_right(form: Form, store: &[u8], kept: Kept, i: usize) -> bool
    requires { Has form store.now i × (is_leaf (slot_in form i store.now) ≡ true) }
    ensures { Passed result (LeafOwn kept (slot_in form i store.now)) }
{
    let s = slot_of(form, store, i);
    let count = count_at(form, store, i);
    let place = place_at(bits_of(s), count as usize);
    if !begins(key_of(s), place) {
        return false;
    }
    head_right(form, store, kept, i)
}

// Whether slot i is free, or holds a record whose own fields are right.
fn slot_right(form: Form, store: &[u8], kept: Kept, i: usize) -> bool
    requires { Has form store.now i × Keeps form store.now kept }
    ensures { Passed result (OwnAt (store_in form store.now) i) }
{
    let s = slot_of(form, store, i);
    if all_zero(s) {
        return true;
    }
    if is_leaf(s) {
        return leaf_right(form, store, kept, i);
    }
    if is_inner(s) {
        return head_right(form, store, kept, i);
    }
    false
}

// How many slots, from the first on, are free or hold a record whose own fields are right.
pub fn own_right(form: Form, store: &[u8], kept: Kept) -> usize
    requires { Keeps form store.now kept }
    ensures { Each (OwnAt (store_in form store.now)) result }
{
    let n = slot_count(form, store);
    for i in 0..n {
        if !slot_right(form, store, kept, i) {
            return i;
        }
    }
    n
}
