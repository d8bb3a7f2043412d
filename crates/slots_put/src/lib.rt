// Writing a slot in lent memory, document 01, 'Bytes', and the counted form of 2026-09: a leaf, an inner record, or free. A leaf and an inner
// record share their head. How many bytes are lent, 120 or 128, tells the form.
#![tactic(auto)]

ghost use Rattle.std.specs.Prelude.{◌≡◌, ◌+◌, ◌≤◌, length};
ghost use Rattle.terms.specs.declared.Form.{Form};
ghost use Rattle.terms.specs.Fields.{flat};
ghost use Rattle.terms.specs.Records.{used, free, inner_body, tally, no_tally};
ghost use Rattle.fields.specs.Written.{written};
ghost use Rattle.place.specs.Place.{place_of, Proper};
ghost use Rattle.layout.specs.Sizes.{slot_size, grant_size, child_size};
ghost use Rattle.layout.specs.Slots.{record_of, head_fields, child_fields, slot_bytes, SlotLong};
ghost use Rattle.slots.specs.Answer.{child_says, grant_body};

use fields::{clear, copy, put_u16, put_u32};
use hash::put_hash;
use layout::sizes;
use place::Place;
use slots::Child;
use slots_form::inner_kind;

// Writes the head of a record: length, kind, bit count, bits, version, retired-since.
fn put_head(s: &mut [u8], len: u32, kind: u16, place: Place, version: u32, retired: u32)
    requires { SlotLong s.old × Proper place }
    ensures { s.new ≡ written 0 (flat (head_fields len kind (place_of place) version retired)) s.old }
{
    let count = place.count as u16;
    let bits = place.bits;
    put_u32(s, 0, len);
    put_u16(s, sizes::KIND_AT, kind);
    put_u16(s, sizes::COUNT_AT, count);
    copy(&mut s[sizes::BITS_AT..sizes::VERSION_AT], &bits);
    put_u32(s, sizes::VERSION_AT, version);
    put_u32(s, sizes::RETIRED_AT, retired);
}

fn put_child(s: &mut [u8], at: usize, c: Child)
    requires { at + child_size ≤ length s.old }
    ensures { s.new ≡ written at (flat (child_fields (child_says c))) s.old }
{
    let hash = at + 4;
    let end = hash + 32;
    put_u32(s, at, c.version);
    put_hash(&mut s[hash..end], c.hash);
}

// Writes a leaf over the bytes of a slot; the grant is key and value.
pub fn put_leaf(s: &mut [u8], place: Place, version: u32, retired: u32, grant: &[u8])
    requires { SlotLong s.old × Proper place × (length grant.now ≡ grant_size) }
    ensures { (f : Form) → length s.old ≡ slot_size f → s.new ≡ slot_bytes f (used (record_of (place_of place) version retired (grant_body grant.now) no_tally)) }
{
    let end = s.len();
    put_head(
        s,
        sizes::LEAF_LENGTH,
        sizes::LEAF_KIND,
        place,
        version,
        retired,
    );
    copy(&mut s[sizes::KEY_AT..sizes::TAIL_AT], grant);
    clear(&mut s[sizes::TAIL_AT..end]);
}

// Writes an inner record over the bytes of a slot; the plain form has no room for its counts.
pub fn put_inner(
    s: &mut [u8],
    place: Place,
    version: u32,
    retired: u32,
    left: Child,
    right: Child,
    lefts: u32,
    rights: u32,
)
    requires { SlotLong s.old × Proper place }
    ensures { (f : Form) → length s.old ≡ slot_size f → s.new ≡ slot_bytes f (used (record_of (place_of place) version retired (inner_body (child_says left) (child_says right)) (tally lefts rights))) }
{
    let size = s.len();
    let kind = inner_kind(size);
    put_head(s, size as u32, kind, place, version, retired);
    put_child(s, sizes::LEFT_AT, left);
    put_child(s, sizes::RIGHT_AT, right);
    if size < sizes::COUNTED_SIZE {
        return;
    }
    put_u32(s, sizes::LEFT_COUNT_AT, lefts);
    put_u32(s, sizes::RIGHT_COUNT_AT, rights);
}

// Frees the bytes of a slot.
pub fn clear_slot(s: &mut [u8])
    requires { SlotLong s.old }
    ensures { (f : Form) → length s.old ≡ slot_size f → s.new ≡ slot_bytes f free }
{
    clear(s);
}
