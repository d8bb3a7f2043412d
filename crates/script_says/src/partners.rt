// ICS 23's message in words, and the record of a grant whose key and value are the SHA-256 of two words.
use digest::digest;
use fields::get_u32;
use hash::{hash_at, put_hash};
use script::say;
use script::words::part;

pub fn word(l: &[u8], n: usize) -> &[u8] {
    part(l, n, b' ')
}

// A raw word; - is none.
pub fn raw(w: &[u8]) -> &[u8] {
    match w {
        b"-" => &[],
        _ => w,
    }
}

pub fn say_root(answer: &[u8; 40]) {
    say::text(b"root ");
    say::hex(hash_at(answer, 4));
    say::text(b"\n");
}

// The record that inserts the grant.
pub fn grant_record(key: &[u8], value: &[u8]) -> [u8; 72] {
    let mut record = [0u8; 72];
    record[0] = 72;
    record[4] = 1;
    put_hash(&mut record[8..40], digest(key));
    put_hash(&mut record[40..72], digest(value));
    record
}

// Where a raw part stands.
fn say_spot(spot: &[u8; 8]) {
    say::text(b", ");
    say::count(get_u32(spot, 4) as usize);
    say::text(b" at ");
    say::count(get_u32(spot, 0) as usize);
}

// What was read, beside the record that the message was written from, and where its five raw parts stand.
pub fn say_read(answer: &[u8; 44], own: &[u8], record: &[u8]) {
    let Some(read) = own.get(..get_u32(answer, 0) as usize) else {
        return;
    };
    say::choice(read == record, b"the record again", b"ANOTHER RECORD");
    for spot in answer[4..].as_chunks().0 {
        say_spot(spot);
    }
    say::text(b"\n");
}
