// The form of a header, document 01, 'Bytes', and refusals 1 and 2: whether a store's length and first 24 bytes are right.
#![tactic(auto)]

ghost use Rattle.std.specs.Prelude.{◌≡◌, ◌≤◌, length};
ghost use Rattle.layout.specs.Sizes.{header_size, header_kind};
ghost use Rattle.layout.specs.Headers.{size_right, header_right};

use fields::{all_zero, get_u16, get_u32};
use layout::{sizes, slot_size};
use terms::Form;

// The kind of a header of either form.
pub fn header_kind(form: Form) -> u16
    ensures { result ≡ header_kind form }
{
    match form {
        Form::Plain => sizes::PLAIN_HEADER_KIND,
        Form::Counted => sizes::COUNTED_HEADER_KIND,
    }
}

// Whether a store of n bytes has a header and 1 to 16,384 slots, no byte over.
pub fn size_right(form: Form, n: usize) -> bool
    ensures { result ≡ size_right form n }
{
    let size = slot_size(form);
    if n < sizes::HEADER_SIZE + size {
        return false;
    }
    if sizes::HEADER_SIZE + size * sizes::MOST_SLOTS < n {
        return false;
    }
    (n - sizes::HEADER_SIZE) % size == 0
}

// Whether each header field is as it should be.
pub fn header_right(form: Form, store: &[u8]) -> bool
    requires { header_size ≤ length store.now }
    ensures { result ≡ header_right form store.now }
{
    let kind = header_kind(form);
    let size = slot_size(form);
    if get_u32(store, 0) != sizes::HEADER_LENGTH {
        return false;
    }
    if get_u16(store, sizes::KIND_AT) != kind {
        return false;
    }
    if !all_zero(&store[sizes::GAP_AT..sizes::CAPACITY_AT]) {
        return false;
    }
    if get_u32(store, sizes::CAPACITY_AT) as usize != (store.len() - sizes::HEADER_SIZE) / size {
        return false;
    }
    if get_u32(store, sizes::LATEST_AT) < get_u32(store, sizes::OLDEST_AT) {
        return false;
    }
    all_zero(&store[sizes::HEADER_TAIL_AT..sizes::HEADER_SIZE])
}
