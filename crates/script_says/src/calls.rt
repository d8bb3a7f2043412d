// What came of a call, in words: accepted or refused, the slot that a read named, the root, what was found, what was made.
ghost use Rattle.std.specs.Prelude.{◌≡◌};
ghost use Rattle.hash.specs.Hash.{hash_bytes};

use digest::digest;
use fields::get_u32;
use hash::{Hash, hash_at, put_hash, same_hash};
use script::words::{is_key, key, number, part, rest};
use script::{held, say};

pub fn refused(no: u32, end: &[u8]) {
    say::text(b"refused with ");
    say::count(no as usize);
    say::text(end);
}

// Whether these bytes still hash to what they did.
pub fn say_kept(before: Hash, bytes: &[u8]) {
    say::choice(
        same_hash(before, digest(bytes)),
        b", nothing written\n",
        b", BUT SOMETHING WRITTEN\n",
    );
}

// Whether a call that may write to these bytes was accepted; if not, what it gave. `before` is what they hashed to before it.
pub fn accepted(no: u32, before: Hash, bytes: &[u8]) -> bool {
    if no == 0 {
        return true;
    }
    refused(no, b"");
    say_kept(before, bytes);
    false
}

// What a read refused with: the number in the low half and, where the high half isn't 0, the slot one below it.
pub fn refused_read(no: u64, end: &[u8]) {
    say::text(b"refused with ");
    say::count((no % 4294967296) as usize);
    if let Some(slot) = (no / 4294967296).checked_sub(1) {
        say::text(b", slot ");
        say::count(slot as usize);
    }
    say::text(end);
}

// What a batch made: its version, its new records, how many records it retired, where the new ones are few their slots, and its root.
pub fn say_made(store: &[u8], answer: &[u8; 40], root: Hash) {
    let version = get_u32(answer, 0);
    let new = get_u32(answer, 36);
    say::text(b"version ");
    say::count(version as usize);
    say::text(b", new records ");
    say::count(new as usize);
    say::text(b", retired since ");
    say::count(version as usize);
    say::text(b": ");
    say::count(held::retired_since(store, version));
    say::text(b"\n");
    if 0 < new && new <= 20 {
        held::say_slots(store, Some(version));
    }
    say::text(b"        root ");
    say::hex(hash_at(answer, 4));
    say::choice(
        same_hash(hash_at(answer, 4), root),
        b", the hash of 01's tree\n",
        b", NOT THE HASH OF 01'S TREE\n",
    );
}

// The number in an answer of four bytes.
pub fn number_in(answer: &[u8; 4]) -> u32 {
    get_u32(answer, 0)
}

pub fn say_root(no: u64, root: &[u8; 32]) {
    if no != 0 {
        refused_read(no, b"\n");
        return;
    }
    say::hex(hash_at(root, 0));
    say::text(b"\n");
}

// Word n of those after the name.
pub fn word(l: &[u8], n: usize) -> &[u8] {
    part(part(l, 1, b':'), n, b' ')
}

// The 32 bytes of a hash.
pub fn bytes_of(h: Hash) -> [u8; 32]
    ensures { result ≡ hash_bytes h }
{
    let mut bytes = [0u8; 32];
    put_hash(&mut bytes, h);
    bytes
}

// The version and the key that a line asks for, once the front of what came is written.
pub fn asks(call: &[u8], l: &[u8]) -> Option<(u32, [u8; 32])> {
    let version = number(word(l, 1))?;
    let w = word(l, 2);
    if !is_key(w) {
        return None;
    }
    say::line(call, rest(part(l, 0, b':'), b' '), b" in version ");
    say::text(word(l, 1));
    Some((version, bytes_of(key(w))))
}

pub fn say_found(found: &[u8; 33]) {
    if found[0] == 0 {
        say::text(b"absent\n");
        return;
    }
    say::text(b"present, value ");
    say::hex(hash_at(found, 1));
    say::text(b"\n");
}

pub fn say_got(no: u64, found: &[u8; 33]) {
    if no != 0 {
        refused_read(no, b"\n");
        return;
    }
    say_found(found);
}

// How deep the records lie.
pub fn levels(store: &[u8]) -> Option<()> {
    say::text(b"  came  ");
    held::say_levels(store);
    Some(())
}

// Comments, which are passed over, and what is written as it stands.
pub fn said(c: &[u8], words: &[u8]) -> bool {
    match c {
        b"row" => say::line(b"\n", words, b"\n"),
        b"01" => say::line(b"  01    ", words, b"\n"),
        b"02" => say::line(b"  02    ", words, b"\n"),
        b"#" | b"" => {}
        _ => return false,
    }
    true
}
