// Reading and writing the header of a store in lent memory, document 01, 'Bytes'.
#![tactic(auto)]

ghost use Rattle.std.specs.Prelude.{◌≡◌, ◌≤◌, length};
ghost use Rattle.fields.specs.Written.{written};
ghost use Rattle.layout.specs.Sizes.{header_size};
ghost use Rattle.layout.specs.Headers.{header_of, header_bytes};
ghost use Rattle.header.specs.Answer.{header_says};

use fields::{get_u32, put_u16, put_u32};
use header_form::{header_kind, header_right, size_right};
use layout::sizes;
use refusal_numbers::Refusal;
use terms::Form;

// What a header says: how many slots the store has, and its kept versions.
#[derive(Clone, Copy, Debug, PartialEq, Eq)]
pub struct Header {
    pub capacity: u32,
    pub oldest: u32,
    pub latest: u32,
}

// Reads the header of any bytes.
pub fn read_header(form: Form, store: &[u8]) -> Result<Header, Refusal>
    ensures { header_says result ≡ header_of form store.now }
{
    if !size_right(form, store.len()) {
        return Err(Refusal::WrongSize);
    }
    if !header_right(form, store) {
        return Err(Refusal::WrongHeader);
    }
    Ok(Header {
        capacity: get_u32(store, sizes::CAPACITY_AT),
        oldest: get_u32(store, sizes::OLDEST_AT),
        latest: get_u32(store, sizes::LATEST_AT),
    })
}

// Writes the 24 bytes of a header, and nothing else.
pub fn put_header(form: Form, store: &mut [u8], capacity: u32, oldest: u32, latest: u32)
    requires { header_size ≤ length store.old }
    ensures { store.new ≡ written 0 (header_bytes form capacity oldest latest) store.old }
{
    let kind = header_kind(form);
    put_u32(store, 0, sizes::HEADER_LENGTH);
    put_u16(store, sizes::KIND_AT, kind);
    put_u16(store, sizes::GAP_AT, 0);
    put_u32(store, sizes::CAPACITY_AT, capacity);
    put_u32(store, sizes::OLDEST_AT, oldest);
    put_u32(store, sizes::LATEST_AT, latest);
    put_u32(store, sizes::HEADER_TAIL_AT, 0);
}
