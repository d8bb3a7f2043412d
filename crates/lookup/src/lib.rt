// Finding a node in lent memory, document 01, 'Reading and proving'.
#![tactic(auto)]

ghost use Rattle.std.specs.Prelude.{◌≡◌, true, length};
ghost use Rattle.place.specs.Place.{place_of, Proper};
ghost use Rattle.layout.specs.Headers.{size_right};
ghost use Rattle.layout.specs.Slots.{slot_of, SlotLong};
ghost use Rattle.layout.specs.Stores.{store_in};
ghost use Rattle.lookup.specs.Lookup.{is_used, FoundIn};

use fields::{get_u16, get_u32};
use layout::{sizes, slot_size, slot_start};
use place::Place;
use slots_form::{is_inner, is_leaf};
use store::slot_count;
use terms::Form;

// Whether the bytes of a slot are a record in form.
pub fn holds_record(s: &[u8]) -> bool
    requires { SlotLong s.now }
    ensures { result ≡ is_used (slot_of s.now) }
{
    if is_leaf(s) {
        return true;
    }
    is_inner(s)
}

// The lowest slot that matches a version and place: the cheap fields first, and the next slot at the first difference.
// Its form is asked for (docs/TRACE.md, 'Forms to follow'): a loop that yields the slot by break, left by a label where a byte differs.
pub fn find(form: Form, store: &[u8], version: u32, place: Place) -> Option<usize>
    requires { (size_right form (length store.now) ≡ true) × Proper place }
    ensures { FoundIn (store_in form store.now).slots version (place_of place) result }
{
    let bits = place.bits;
    let count = place.count;
    let n = slot_count(form, store);
    let mut i = 0;
    'slots: loop {
        if n <= i {
            break 'slots None;
        }
        let at = slot_start(form, i);
        if get_u32(store, at + sizes::VERSION_AT) != version {
            i += 1;
            continue 'slots;
        }
        if get_u16(store, at + sizes::COUNT_AT) as usize != count {
            i += 1;
            continue 'slots;
        }
        let mut k = 0;
        while k < 32 {
            if store[at + sizes::BITS_AT + k] != bits[k] {
                i += 1;
                continue 'slots;
            }
            k += 1;
        }
        let end = at + slot_size(form);
        if holds_record(&store[at..end]) {
            break 'slots Some(i);
        }
        i += 1;
    }
}
