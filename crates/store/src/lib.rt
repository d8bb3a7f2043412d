// A store in lent memory by what it holds, document 01, 'Bytes': its slots by their number, slot i the 120 bytes from 24 + 120 i on, or in the
// counted form the 128 from 24 + 128 i on, and the kept versions of its header. Above this room nobody knows a size or an offset; proofs/Scans has the law of a loop over the slots.
#![tactic(auto)]

ghost use Rattle.std.specs.Prelude.{◌≡◌, true, ◌<◌, length};
ghost use Rattle.terms.specs.Fields.{field};
ghost use Rattle.terms.specs.Records.{count_on};
ghost use Rattle.layout.specs.Sizes.{slot_size, kind_at, room_of};
ghost use Rattle.layout.specs.Headers.{size_right};
ghost use Rattle.layout.specs.Slots.{count_in, version_in, since_in, kid_on, counts_in, SlotLong};
ghost use Rattle.layout.specs.Stores.{slot_in, store_of, HeaderWithin, SlotWithin};

use fields::{get_u16, get_u32};
use layout::{sizes, slot_size, slot_start};
use terms::Form;

// A number of two bytes, a bit count or that of a slot in a table, as an index.
pub fn wide(x: u16) -> usize
    ensures { (result ≡ x) × (result < 65536) }
{
    x as usize
}

// How many slots a store of the right size has.
pub fn slot_count(form: Form, store: &[u8]) -> usize
    requires { size_right form (length store.now) ≡ true }
    ensures { result ≡ room_of form (length store.now) }
{
    (store.len() - sizes::HEADER_SIZE) / slot_size(form)
}

// The first and the last version kept.
pub fn oldest_of(store: &[u8]) -> u32
    requires { HeaderWithin store.now }
    ensures { result ≡ (store_of store.now).oldest }
{
    get_u32(store, sizes::OLDEST_AT)
}

pub fn latest_of(store: &[u8]) -> u32
    requires { HeaderWithin store.now }
    ensures { result ≡ (store_of store.now).latest }
{
    get_u32(store, sizes::LATEST_AT)
}

// The bytes of slot i of a store.
pub fn slot_of(form: Form, store: &[u8], i: usize) -> &[u8]
    requires { SlotWithin form i store.now }
    ensures { (result.now ≡ slot_in form i store.now) × (length result.now ≡ slot_size form) × SlotLong result.now }
{
    let start = slot_start(form, i);
    let end = start + slot_size(form);
    &store[start..end]
}

// Single fields of slot i, for searches.
pub fn version_at(form: Form, store: &[u8], i: usize) -> u32
    requires { SlotWithin form i store.now }
    ensures { result ≡ version_in (slot_in form i store.now) }
{
    let at = slot_start(form, i) + sizes::VERSION_AT;
    get_u32(store, at)
}

pub fn retired_at(form: Form, store: &[u8], i: usize) -> u32
    requires { SlotWithin form i store.now }
    ensures { result ≡ since_in (slot_in form i store.now) }
{
    let at = slot_start(form, i) + sizes::RETIRED_AT;
    get_u32(store, at)
}

pub fn count_at(form: Form, store: &[u8], i: usize) -> u16
    requires { SlotWithin form i store.now }
    ensures { result ≡ count_in (slot_in form i store.now) }
{
    let at = slot_start(form, i) + sizes::COUNT_AT;
    get_u16(store, at)
}

pub fn kind_at(form: Form, store: &[u8], i: usize) -> u16
    requires { SlotWithin form i store.now }
    ensures { result ≡ field kind_at 2 (slot_in form i store.now) }
{
    let at = slot_start(form, i) + sizes::KIND_AT;
    get_u16(store, at)
}

// The version that slot i has at its left or right child, were it an inner record.
pub fn child_version_at(form: Form, store: &[u8], i: usize, right: bool) -> u32
    requires { SlotWithin form i store.now }
    ensures { result ≡ (kid_on right (slot_in form i store.now)).version }
{
    let at = slot_start(form, i);
    if right {
        return get_u32(store, at + sizes::RIGHT_AT);
    }
    get_u32(store, at + sizes::LEFT_AT)
}

// The count that slot i has of the leaves at its left or right child; in the plain form there is none, which reads as 0.
pub fn child_count_at(form: Form, store: &[u8], i: usize, right: bool) -> u32
    requires { SlotWithin form i store.now }
    ensures { result ≡ count_on right (counts_in (slot_in form i store.now)) }
{
    let at = slot_start(form, i);
    match form {
        Form::Plain => 0,
        Form::Counted => {
            if right {
                return get_u32(store, at + sizes::RIGHT_COUNT_AT);
            }
            get_u32(store, at + sizes::LEFT_COUNT_AT)
        }
    }
}
