// The form of a batch, document 01, 'Bytes': whether its bytes are whole records in form, and which of them are inserts.
#![tactic(auto)]

ghost use Rattle.std.specs.Prelude.{◌≡◌, ◌<◌, length};
ghost use Rattle.batch.specs.Sizes.{record_size};
ghost use Rattle.batch.specs.Batch.{count, head_is, is_insert, is_delete, ask_form, batch_form};
ghost use Rattle.batch.specs.Records.{ask_at, inserts};

use batch::{RECORD_SIZE, record_at};
use fields::{all_zero, get_u16, get_u32};

// Length 72 and kind 1 (insert) or length 40 and kind 2 (delete), 2 zero.
const INSERT_LENGTH: u32 = 72;

const INSERT_KIND: u16 = 1;

const DELETE_LENGTH: u32 = 40;

const DELETE_KIND: u16 = 2;

const KIND_AT: usize = 4;

const ZERO_AT: usize = 6;

const VALUE_AT: usize = 40;

// At most 1,024 records.
const MOST_RECORDS: usize = 1024;

// Whether a record begins with length n, kind k and 2 zero.
fn head_is(x: &[u8], n: u32, k: u16) -> bool
    requires { length x.now ≡ record_size }
    ensures { result ≡ head_is n k x.now }
{
    if get_u32(x, 0) != n {
        return false;
    }
    if get_u16(x, KIND_AT) != k {
        return false;
    }
    get_u16(x, ZERO_AT) == 0
}

fn insert_form(x: &[u8]) -> bool
    requires { length x.now ≡ record_size }
    ensures { result ≡ is_insert x.now }
{
    head_is(x, INSERT_LENGTH, INSERT_KIND)
}

fn delete_form(x: &[u8]) -> bool
    requires { length x.now ≡ record_size }
    ensures { result ≡ is_delete x.now }
{
    if !head_is(x, DELETE_LENGTH, DELETE_KIND) {
        return false;
    }
    all_zero(&x[VALUE_AT..RECORD_SIZE])
}

// Whether a record is in form.
fn record_form(x: &[u8]) -> bool
    requires { length x.now ≡ record_size }
    ensures { result ≡ ask_form x.now }
{
    if insert_form(x) {
        return true;
    }
    delete_form(x)
}

// Whether a batch is whole records in form, at most 1,024.
pub fn batch_form(b: &[u8]) -> bool
    ensures { result ≡ batch_form b.now }
{
    if b.len() % RECORD_SIZE != 0 {
        return false;
    }
    let n = b.len() / RECORD_SIZE;
    if MOST_RECORDS < n {
        return false;
    }
    for i in 0..n {
        if !record_form(record_at(b, i)) {
            return false;
        }
    }
    true
}

// Whether record i of a batch is an insert.
pub fn is_insert(b: &[u8], i: usize) -> bool
    requires { i < count b.now }
    ensures { result ≡ inserts (ask_at i b.now) }
{
    insert_form(record_at(b, i))
}
