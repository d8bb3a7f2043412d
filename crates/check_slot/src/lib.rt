// The exact test of one slot, document 01, 'Sound': its record is looked at with a pass over the slots for its node, its children and its
// parents, or, of a root, the other roots; no version is tried, and the record is hashed once.
#![tactic(auto)]

ghost use Rattle.std.specs.Prelude.{◌≡◌, ◌<◌, length};
ghost use Rattle.terms.specs.Records.{inner_body, tally, no_tally};
ghost use Rattle.local.specs.Test.{record_test, slot_test, slots_test};
ghost use Rattle.nodehash.specs.Node.{leaf_hash, inner_hash};
ghost use Rattle.layout.specs.Slots.{leaf_in, counts_in, SlotLong};
ghost use Rattle.layout.specs.Stores.{store_in, slot_no, Has};
ghost use Rattle.slots.specs.Answer.{child_says};
ghost use Rattle.check_kin.specs.Kin.{Keeps};
ghost use Rattle.check_alone.specs.Parts.{record_on, Headed};

use check_above::above_right;
use check_alone::{Head, alone_right, children_found};
use check_counts::counts_right;
use check_kin::Kept;
use nodehash::{inner_hash, leaf_hash};
use place::begins;
use slots::{Child, Kind, grant_of, key_of, read_slot};
use store::{child_count_at, slot_count, slot_of};
use terms::Form;

// Whether a leaf, whose slot is s, passes its tests.
fn leaf_passes(form: Form, store: &[u8], kept: Kept, head: Head, s: &[u8]) -> bool
    requires { Headed form store.now kept head × SlotLong s.now × (counts_in s.now ≡ no_tally) }
    ensures { result ≡ record_test leaf_hash inner_hash (store_in form store.now) (record_on head (leaf_in s.now) (counts_in s.now)) }
{
    if !alone_right(form, store, kept, head) {
        return false;
    }
    let place = head.place;
    if !begins(key_of(s), place) {
        return false;
    }
    above_right(form, store, kept, head, true, leaf_hash(grant_of(s)))
}

// Whether an inner record with these children passes its tests.
fn inner_passes(
    form: Form,
    store: &[u8],
    kept: Kept,
    head: Head,
    left: Child,
    right: Child,
    lefts: u32,
    rights: u32,
) -> bool
    requires { Headed form store.now kept head × (head.place.count < 256) }
    ensures { result ≡ record_test leaf_hash inner_hash (store_in form store.now) (record_on head (inner_body (child_says left) (child_says right)) (tally lefts rights)) }
{
    if !alone_right(form, store, kept, head) {
        return false;
    }
    let place = head.place;
    if !children_found(form, store, place, left.version, right.version) {
        return false;
    }
    if !counts_right(
        form,
        store,
        place,
        left.version,
        right.version,
        lefts,
        rights,
    ) {
        return false;
    }
    let a = left.hash;
    let b = right.hash;
    above_right(form, store, kept, head, false, inner_hash(a, b))
}

// Whether slot i is free, or holds a record that passes its tests.
pub fn slot_passes(form: Form, store: &[u8], i: usize, kept: Kept) -> bool
    requires { Has form store.now i × Keeps form store.now kept }
    ensures { result ≡ slot_test leaf_hash inner_hash (store_in form store.now) (slot_no form i store.now) }
{
    let s = slot_of(form, store, i);
    let slot = read_slot(s);
    let place = slot.place;
    let head = Head {
        place,
        version: slot.version,
        retired: slot.retired,
    };
    let kind = slot.kind;
    match kind {
        Kind::Free => true,
        Kind::Leaf => leaf_passes(form, store, kept, head, s),
        Kind::Inner { left, right } => {
            let lefts = child_count_at(form, store, i, false);
            let rights = child_count_at(form, store, i, true);
            inner_passes(form, store, kept, head, left, right, lefts, rights)
        }
        Kind::Spoiled => false,
    }
}

// Whether each slot passes, by the exact test of each.
pub fn each_passes(form: Form, store: &[u8], kept: Kept) -> bool
    requires { Keeps form store.now kept }
    ensures { result ≡ slots_test leaf_hash inner_hash (store_in form store.now) }
{
    let n = slot_count(form, store);
    for i in 0..n {
        if !slot_passes(form, store, i, kept) {
            return false;
        }
    }
    true
}
