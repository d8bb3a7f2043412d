// Slots in lent memory, document 01, 'Bytes', and the counted form of 2026-09: reading the bytes of any slot, and their parts. How many they
// are, 120 or 128, tells the form.
#![tactic(auto)]

ghost use Rattle.std.specs.Prelude.{◌≡◌, true, ◌+◌, ◌≤◌, length, drop};
ghost use Rattle.terms.specs.Bits.{bits, none_set};
ghost use Rattle.layout.specs.Sizes.{grant_size, child_size};
ghost use Rattle.layout.specs.Slots.{bits_in, count_in, key_in, value_inside, grant_in, child_in, kid_on, SlotLong};
ghost use Rattle.slots.specs.Answer.{child_says, Made, Held, Read};

use fields::{all_zero, get_u16, get_u32};
use hash::{Hash, hash_at};
use layout::sizes;
use place::{Place, place_at};
use slots_form::{is_inner, is_leaf};

// What an inner record says of a child; version 0: there is no child.
#[derive(Clone, Copy)]
pub struct Child {
    pub version: u32,
    pub hash: Hash,
}

#[derive(Clone, Copy)]
pub enum Kind {
    Free,
    // Its key and value stay in the slot's bytes.
    Leaf,
    Inner { left: Child, right: Child },
    Spoiled,
}

// What the bytes of a slot hold; of a free or spoiled slot the kind is all that counts.
#[derive(Clone, Copy)]
pub struct Slot {
    pub kind: Kind,
    pub place: Place,
    pub version: u32,
    pub retired: u32,
}

fn child_at(s: &[u8], at: usize) -> Child
    requires { at + child_size ≤ length s.now }
    ensures { child_says result ≡ child_in at s.now }
{
    let version = get_u32(s, at);
    let hash = hash_at(s, at + 4);
    Child { version, hash }
}

// A slot of a kind that says nothing else.
fn bare(kind: Kind) -> Slot
    ensures { Made kind result }
{
    let place = Place::top();
    Slot {
        kind,
        place,
        version: 0,
        retired: 0,
    }
}

// A slot of a kind with place, version and retired-since as the bytes have them.
fn held(s: &[u8], kind: Kind) -> Slot
    requires { SlotLong s.now × (count_in s.now ≤ 256) × (none_set (drop (count_in s.now) (bits (bits_in s.now))) ≡ true) }
    ensures { Held kind s.now result }
{
    let count = get_u16(s, sizes::COUNT_AT);
    let place = place_at(&s[sizes::BITS_AT..sizes::VERSION_AT], count as usize);
    let version = get_u32(s, sizes::VERSION_AT);
    let retired = get_u32(s, sizes::RETIRED_AT);
    Slot {
        kind,
        place,
        version,
        retired,
    }
}

// Reads the bytes of a slot.
pub fn read_slot(s: &[u8]) -> Slot
    requires { SlotLong s.now }
    ensures { Read s.now result }
{
    if all_zero(s) {
        return bare(Kind::Free);
    }
    if is_leaf(s) {
        return held(s, Kind::Leaf);
    }
    if is_inner(s) {
        let left = child_at(s, sizes::LEFT_AT);
        let right = child_at(s, sizes::RIGHT_AT);
        return held(s, Kind::Inner { left, right });
    }
    bare(Kind::Spoiled)
}

// The grant of a leaf, in the slot's own bytes: key and value.
pub fn grant_of(s: &[u8]) -> &[u8]
    requires { SlotLong s.now }
    ensures { (result.now ≡ grant_in s.now) × (length result.now ≡ grant_size) }
{
    &s[sizes::KEY_AT..sizes::TAIL_AT]
}

// Its key alone.
pub fn key_of(s: &[u8]) -> &[u8]
    requires { SlotLong s.now }
    ensures { (result.now ≡ key_in s.now) × (length result.now ≡ 32) }
{
    &s[sizes::KEY_AT..sizes::VALUE_AT]
}

// Its value alone.
pub fn value_of(s: &[u8]) -> &[u8]
    requires { SlotLong s.now }
    ensures { (result.now ≡ value_inside s.now) × (length result.now ≡ 32) }
{
    &s[sizes::VALUE_AT..sizes::TAIL_AT]
}

// The bits of a record's place, in 32 bytes.
pub fn bits_of(s: &[u8]) -> &[u8]
    requires { SlotLong s.now }
    ensures { (result.now ≡ bits_in s.now) × (length result.now ≡ 32) }
{
    &s[sizes::BITS_AT..sizes::VERSION_AT]
}

// The hash that an inner record has of its left or right child.
pub fn child_hash(s: &[u8], right: bool) -> &[u8]
    requires { SlotLong s.now }
    ensures { (result.now ≡ (kid_on right s.now).hash) × (length result.now ≡ 32) }
{
    if right {
        return &s[sizes::RIGHT_HASH_AT..sizes::PLAIN_SIZE];
    }
    &s[sizes::LEFT_HASH_AT..sizes::RIGHT_AT]
}
