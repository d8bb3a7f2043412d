// Whether the bytes of a slot are a record in form, document 01, 'Bytes', and the counted form of 2026-09. How many they are, 120 or 128, tells the
// form. A leaf and an inner record share their head.
#![tactic(auto)]

ghost use Rattle.std.specs.Prelude.{◌≡◌, ◌+◌, ◌≤◌, length};
ghost use Rattle.terms.specs.Fields.{all_of};
ghost use Rattle.layout.specs.Sizes.{inner_kind, child_size};
ghost use Rattle.layout.specs.Slots.{child_in, head_tests, is_leaf, child_right, is_inner, SlotLong};

use fields::{all_zero, get_u16, get_u32};
use layout::sizes;
use place::unused_zero;

// Whether the head of a record is in form: its length and kind, a bit count up to a limit, unused bits zero, version at least 1.
fn head_right(s: &[u8], len: u32, kind: u16, limit: u16) -> bool
    requires { SlotLong s.now }
    ensures { result ≡ all_of (head_tests len kind limit s.now) }
{
    if get_u32(s, 0) != len {
        return false;
    }
    if get_u16(s, sizes::KIND_AT) != kind {
        return false;
    }
    let count = get_u16(s, sizes::COUNT_AT);
    if limit < count {
        return false;
    }
    if !unused_zero(&s[sizes::BITS_AT..sizes::VERSION_AT], count as usize) {
        return false;
    }
    1 <= get_u32(s, sizes::VERSION_AT)
}

// Whether the bytes of a slot are a leaf in form.
pub fn is_leaf(s: &[u8]) -> bool
    requires { SlotLong s.now }
    ensures { result ≡ is_leaf s.now }
{
    if !head_right(s, sizes::LEAF_LENGTH, sizes::LEAF_KIND, sizes::LEAF_BITS) {
        return false;
    }
    let end = s.len();
    all_zero(&s[sizes::TAIL_AT..end])
}

// The kind of an inner record in a slot of n bytes.
pub fn inner_kind(n: usize) -> u16
    ensures { result ≡ inner_kind n }
{
    if n == sizes::PLAIN_SIZE {
        return sizes::PLAIN_INNER_KIND;
    }
    sizes::COUNTED_INNER_KIND
}

// Whether a child that is missing has no hash.
fn child_right(s: &[u8], at: usize) -> bool
    requires { at + child_size ≤ length s.now }
    ensures { result ≡ child_right (child_in at s.now) }
{
    if 1 <= get_u32(s, at) {
        return true;
    }
    let hash = at + 4;
    let end = hash + 32;
    all_zero(&s[hash..end])
}

// Whether they are an inner record in form.
pub fn is_inner(s: &[u8]) -> bool
    requires { SlotLong s.now }
    ensures { result ≡ is_inner s.now }
{
    let size = s.len();
    let kind = inner_kind(size);
    if !head_right(s, size as u32, kind, sizes::INNER_BITS) {
        return false;
    }
    if !child_right(s, sizes::LEFT_AT) {
        return false;
    }
    if !child_right(s, sizes::RIGHT_AT) {
        return false;
    }
    if 1 <= get_u32(s, sizes::LEFT_AT) {
        return true;
    }
    1 <= get_u32(s, sizes::RIGHT_AT)
}
