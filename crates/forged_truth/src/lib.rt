// Whether a proof tells the truth about a version, request 2026-12: a key read for its key and for each neighbour that it shows.
#![tactic(auto)]

ghost use Rattle.std.specs.Prelude.{◌≡◌, true, length};
ghost use Rattle.terms.specs.Records.{presence, absence};
ghost use Rattle.meaning.specs.Reading.{present, absent, answer_of};
ghost use Rattle.hash.specs.Hash.{hash_bytes};
ghost use Rattle.proofrecords.specs.ProofBytes.{is_presence, presence_in, is_absence, absence_in};
ghost use Rattle.forgery.specs.Finding.{same_verdict, says, all_true};
ghost use Rattle.forged_truth.specs.Truth.{SoundVersion, grants_at, leaf_true, neighbours_true};

use hash::{Hash, hash_at, same_hash};
use neighbour_parts::{is_lone, left_part, lone_part, right_part};
use proofrecords::{KEY_AT, VALUE_AT};
use read_key::walk_read;

// Whether the version has the key with this value.
fn has_value(store: &[u8], version: u32, key: &[u8], value: Hash) -> bool
    requires { SoundVersion store.now version × (length key.now ≡ 32) }
    ensures { result ≡ same_verdict (answer_of key.now (grants_at store.now version)) (present (hash_bytes value)) }
{
    let read = walk_read(store, &[], version, key);
    match read {
        Err(_) => false,
        Ok(Some(held)) => same_hash(held, value),
        Ok(None) => false,
    }
}

// Whether the version lacks the key.
fn lacks_key(store: &[u8], version: u32, key: &[u8]) -> bool
    requires { SoundVersion store.now version × (length key.now ≡ 32) }
    ensures { result ≡ same_verdict (answer_of key.now (grants_at store.now version)) absent }
{
    let read = walk_read(store, &[], version, key);
    match read {
        Err(_) => false,
        Ok(Some(_)) => false,
        Ok(None) => true,
    }
}

// Whether the version has the leaf that a presence proof shows.
fn leaf_true(store: &[u8], version: u32, p: &[u8]) -> bool
    requires { SoundVersion store.now version × (is_presence p.now ≡ true) }
    ensures { result ≡ leaf_true (grants_at store.now version) (presence_in p.now) }
{
    let value = hash_at(p, VALUE_AT);
    has_value(store, version, &p[KEY_AT..VALUE_AT], value)
}

// Whether it has each neighbour that an absence proof shows.
fn neighbours_true(store: &[u8], version: u32, p: &[u8]) -> bool
    requires { SoundVersion store.now version × (is_absence p.now ≡ true) }
    ensures { result ≡ neighbours_true (grants_at store.now version) (absence_in p.now) }
{
    if is_lone(p) {
        return leaf_true(store, version, lone_part(p));
    }
    if !leaf_true(store, version, left_part(p)) {
        return false;
    }
    leaf_true(store, version, right_part(p))
}

// Whether a presence proof tells the truth.
pub fn presence_true(store: &[u8], version: u32, p: &[u8]) -> bool
    requires { SoundVersion store.now version × (is_presence p.now ≡ true) }
    ensures { result ≡ all_true (grants_at store.now version) (says (presence (presence_in p.now))) }
{
    leaf_true(store, version, p)
}

// Whether an absence proof tells the truth: of its key, then of its neighbours.
pub fn absence_true(store: &[u8], version: u32, p: &[u8]) -> bool
    requires { SoundVersion store.now version × (is_absence p.now ≡ true) }
    ensures { result ≡ all_true (grants_at store.now version) (says (absence (absence_in p.now))) }
{
    if !lacks_key(store, version, &p[KEY_AT..VALUE_AT]) {
        return false;
    }
    neighbours_true(store, version, p)
}
