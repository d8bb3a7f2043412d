// The check of a shelf's proof over hostile bytes: the list's record for the key's part against the root, then the part's record for the key
// against the root that the list shows. 12, 21, 10, 11.
#![tactic(auto)]

ghost use Rattle.std.specs.Prelude.{◌≡◌, true, ◌≤◌, length};
ghost use Rattle.shelf_rules.specs.Shelf.{ShelfVerifies};
ghost use Rattle.shelf_verify.specs.Both.{is_proof, is_shelf, first_length, ChecksBoth};

use fields::{clear, get_u32};
use hash::put_hash;
use place::front;
use refusal_numbers::Refusal;
use verify::verify;
use verify_call::grants_verify;
use verify_form::{is_absence, is_presence};

// A shelf has 0 to 12 bits.
const MOST_BITS: u32 = 12;

// Where the first record ends, by its own length; the end where that is past it.
fn first_end(proof: &[u8]) -> usize
    ensures { result ≡ first_length proof.now }
{
    let n = proof.len();
    if n < 4 {
        return n;
    }
    let e = get_u32(proof, 0) as usize;
    if n < e {
        return n;
    }
    e
}

// Whether the bytes are one whole record in form.
fn is_proof(x: &[u8]) -> bool
    ensures { result ≡ is_proof x.now }
{
    if is_presence(x) {
        return true;
    }
    is_absence(x)
}

// Whether the bytes up to e and those after it are the records of a shelf's proof: a second one exactly if the first shows a presence.
fn is_shelf(proof: &[u8], e: usize) -> bool
    requires { e ≤ length proof.now }
    ensures { result ≡ is_shelf e proof.now }
{
    let n = proof.len();
    if is_presence(&proof[0..e]) {
        return is_proof(&proof[e..n]);
    }
    if !is_absence(&proof[0..e]) {
        return false;
    }
    e == n
}

// What the list says of the part, then the part of the key.
fn check_both(
    root: &[u8],
    part: &[u8],
    key: &[u8],
    proof: &[u8],
    e: usize,
    found: &mut [u8; 33],
) -> u32
    requires { e ≤ length proof.now }
    ensures { ChecksBoth root.now part.now key.now e proof.now found.old result found.new }
{
    let n = proof.len();
    let list = verify(root, part, &proof[0..e]);
    match list {
        Err(refusal) => refusal.number(),
        Ok(Some(hash)) => {
            let mut top = [0u8; 32];
            put_hash(&mut top, hash);
            grants_verify(&top, key, &proof[e..n], found)
        }
        Ok(None) => {
            clear(found);
            0
        }
    }
}

// The check for callers in other languages: 0 where a proof is accepted, with 1 and the value or 0 and zero bytes in `found`; else the
// number of refusal, with `found` as it was.
pub fn grants_shelf_verify(
    root: &[u8],
    bits: u32,
    key: &[u8],
    proof: &[u8],
    found: &mut [u8; 33],
) -> u32
    ensures { ShelfVerifies root.now bits key.now proof.now found.old result found.new }
{
    if root.len() != 32 {
        return Refusal::Not32Bytes.number();
    }
    if key.len() != 32 {
        return Refusal::Not32Bytes.number();
    }
    if MOST_BITS < bits {
        return Refusal::TooManyBits.number();
    }
    let e = first_end(proof);
    if !is_shelf(proof, e) {
        return Refusal::NotInForm.number();
    }
    let part = front(key, bits as usize).bits;
    check_both(root, &part, key, proof, e, found)
}
