// Writing a store in lent memory, document 01, 'Bytes': a slot by its number or by the bytes of another, its mark, and the kept versions of the header. Each function writes these bytes and nothing else.
#![tactic(auto)]

ghost use Rattle.std.specs.Prelude.{◌≡◌, length};
ghost use Rattle.terms.specs.Records.{used, free, inner_body, tally, no_tally};
ghost use Rattle.place.specs.Place.{place_of, Proper};
ghost use Rattle.layout.specs.Sizes.{grant_size, slot_size};
ghost use Rattle.layout.specs.Slots.{record_of};
ghost use Rattle.layout.specs.Stores.{HeaderWithin, SlotWithin, with_slot, with_since, with_oldest, with_latest};
ghost use Rattle.slots.specs.Answer.{child_says, grant_body};
ghost use Rattle.store_put.specs.Copied.{with_bytes};

use fields::{copy, put_u32};
use layout::{sizes, slot_size, slot_start};
use place::Place;
use slots::Child;
use slots_put::{clear_slot, put_inner, put_leaf};
use terms::Form;

pub fn put_oldest(store: &mut [u8], version: u32)
    requires { HeaderWithin store.old }
    ensures { store.new ≡ with_oldest version store.old }
{
    put_u32(store, sizes::OLDEST_AT, version);
}

pub fn put_latest(store: &mut [u8], version: u32)
    requires { HeaderWithin store.old }
    ensures { store.new ≡ with_latest version store.old }
{
    put_u32(store, sizes::LATEST_AT, version);
}

// Writing slot i of a store writes its bytes and nothing else.
pub fn put_leaf_at(
    form: Form,
    store: &mut [u8],
    i: usize,
    place: Place,
    version: u32,
    retired: u32,
    grant: &[u8],
)
    requires { (SlotWithin form i store.old) × Proper place × (length grant.now ≡ grant_size) }
    ensures { store.new ≡ with_slot form i (used (record_of (place_of place) version retired (grant_body grant.now) no_tally)) store.old }
{
    let start = slot_start(form, i);
    let end = start + slot_size(form);
    put_leaf(&mut store[start..end], place, version, retired, grant);
}

pub fn put_inner_at(
    form: Form,
    store: &mut [u8],
    i: usize,
    place: Place,
    version: u32,
    retired: u32,
    left: Child,
    right: Child,
    lefts: u32,
    rights: u32,
)
    requires { (SlotWithin form i store.old) × Proper place }
    ensures { store.new ≡ with_slot form i (used (record_of (place_of place) version retired (inner_body (child_says left) (child_says right)) (tally lefts rights))) store.old }
{
    let start = slot_start(form, i);
    let end = start + slot_size(form);
    put_inner(
        &mut store[start..end],
        place,
        version,
        retired,
        left,
        right,
        lefts,
        rights,
    );
}

pub fn clear_slot_at(form: Form, store: &mut [u8], i: usize)
    requires { SlotWithin form i store.old }
    ensures { store.new ≡ with_slot form i free store.old }
{
    let start = slot_start(form, i);
    let end = start + slot_size(form);
    clear_slot(&mut store[start..end]);
}

pub fn put_retired_at(form: Form, store: &mut [u8], i: usize, since: u32)
    requires { SlotWithin form i store.old }
    ensures { store.new ≡ with_since form i since store.old }
{
    let at = slot_start(form, i) + sizes::RETIRED_AT;
    put_u32(store, at, since);
}

// Writes the bytes of a slot to slot i.
pub fn copy_slot(store: &mut [u8], i: usize, slot: &[u8])
    requires { SlotWithin Form.Counted i store.old × (length slot.now ≡ slot_size Form.Counted) }
    ensures { store.new ≡ with_bytes i slot.now store.old }
{
    let start = sizes::HEADER_SIZE + sizes::COUNTED_SIZE * i;
    let end = start + sizes::COUNTED_SIZE;
    copy(&mut store[start..end], slot);
}
