// What a caller lends beside a record for a message, document 02, request 2026-02: raw keys and values that have the right length and hash to what the proof
// holds (15 else); and how long the message of it is.
#![tactic(auto)]

ghost use Rattle.std.specs.Prelude.{◌≡◌, true, cond, ◌+◌, ◌<◌, ◌≤◌, length, eqb};
ghost use Rattle.terms.specs.Fields.{slice};
ghost use Rattle.sha256.specs.Sha256.{sha256};
ghost use Rattle.proofrecords.specs.ProofBytes.{is_presence, presence_in};
ghost use Rattle.messages.specs.Raws.{path};
ghost use Rattle.messages.specs.Lending.{hashes_to, leaf_fits, unlent};
ghost use Rattle.message_lent.specs.Lent.{leaf, record_in, InForm, neighbour_fits, field_length, existence_length, neighbour_length};

use digest::digest;
use fields::get_u16;
use hash::{hash_at, same_hash};
use proofrecords::{KEY_AT, PRESENCE_HEAD, STEP_SIZE, STEPS_AT, VALUE_AT};

// A raw key is no longer.
pub const MOST_KEY: usize = 256;
// A raw value is no longer.
pub const MOST_VALUE: usize = 4096;

// Whether raw bytes have 1 to `most` bytes and hash to the 32 bytes of a proof from there on.
pub fn hashes_to(x: &[u8], most: usize, proof: &[u8], at: usize) -> bool
    requires { at + 32 ≤ length proof.now }
    ensures { result ≡ hashes_to sha256 most x.now (slice at 32 proof.now) }
{
    if x.len() == 0 {
        return false;
    }
    if most < x.len() {
        return false;
    }
    same_hash(digest(x), hash_at(proof, at))
}

// Whether a leaf lent is the one that a presence proof shows.
pub fn leaf_fits(key: &[u8], value: &[u8], p: &[u8]) -> bool
    requires { is_presence p.now ≡ true }
    ensures { result ≡ leaf_fits sha256 (leaf key.now value.now) (presence_in p.now) }
{
    if !hashes_to(key, MOST_KEY, p, KEY_AT) {
        return false;
    }
    hashes_to(value, MOST_VALUE, p, VALUE_AT)
}

// Whether no leaf is lent.
pub fn unlent(key: &[u8], value: &[u8]) -> bool
    ensures { result ≡ unlent (leaf key.now value.now) }
{
    if key.len() != 0 {
        return false;
    }
    value.len() == 0
}

// Whether a leaf lent is the neighbour's, where its record has bytes.
pub fn neighbour_fits(key: &[u8], value: &[u8], p: &[u8]) -> bool
    requires { InForm p.now }
    ensures { result ≡ neighbour_fits (leaf key.now value.now) (record_in p.now) }
{
    if p.len() == 0 {
        return true;
    }
    leaf_fits(key, value, p)
}

// How many bytes a field of n bytes has: its tag, its length, the bytes.
pub fn field_size(n: usize) -> usize
    requires { n < 100000 }
    ensures { (result ≡ field_length n) × (result ≤ n + 4) }
{
    if n < 128 {
        return n + 2;
    }
    if n < 16384 {
        return n + 3;
    }
    n + 4
}

// How many bytes the field of a step has: 39 for a step from the right, 41 from the left.
fn step_size(side: u8) -> usize
    ensures { (result ≡ cond (eqb side 1) 39 41) × (result ≤ 41) }
{
    if side == 1 {
        return 39;
    }
    41
}

// How many bytes the path of a presence proof takes.
fn path_size(p: &[u8]) -> usize
    requires { is_presence p.now ≡ true }
    ensures { (result ≡ length (path (presence_in p.now).steps)) × (result ≤ 10496) }
{
    let n = get_u16(p, STEPS_AT) as usize;
    let mut size = 0;
    for i in 0..n {
        let at = PRESENCE_HEAD + STEP_SIZE * i;
        size += step_size(p[at]);
    }
    size
}

// How many bytes an existence proof has.
pub fn existence_size(key: usize, value: usize, p: &[u8]) -> usize
    requires { (is_presence p.now ≡ true) × (key ≤ 256) × (value ≤ 4096) }
    ensures { (result ≡ existence_length key value (presence_in p.now)) × (result ≤ 14871) }
{
    field_size(key) + field_size(value) + 11 + path_size(p)
}

// How many bytes the field of a neighbour has, 0 where there is nobody.
pub fn neighbour_size(key: usize, value: usize, p: &[u8]) -> usize
    requires { InForm p.now × ((length p.now ≡ 0 → ⊥) → (key ≤ 256) × (value ≤ 4096)) }
    ensures { (result ≡ neighbour_length key value (record_in p.now)) × (result ≤ 14875) }
{
    if p.len() == 0 {
        return 0;
    }
    field_size(existence_size(key, value, p))
}
