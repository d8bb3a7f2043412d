// The neighbours of an absence proof where they lie in its bytes, document 01, 'Bytes': one alone, or the left one and then the right one.
#![tactic(auto)]

ghost use Rattle.std.specs.Prelude.{◌≡◌, true, ◌≤◌, ◌<◌, drop, leb};
ghost use Rattle.proofrecords.specs.ProofBytes.{absence_head, is_presence, is_absence, flags, left_part, right_part};

use fields::{get_u16, get_u32};
use proofrecords::{ABSENCE_HEAD, FLAGS_AT};

// Whether there is one alone.
pub fn is_lone(proof: &[u8]) -> bool
    requires { is_absence proof.now ≡ true }
    ensures { result ≡ leb (flags proof.now) 2 }
{
    get_u16(proof, FLAGS_AT) <= 2
}

pub fn lone_part(proof: &[u8]) -> &[u8]
    requires { (is_absence proof.now ≡ true) × (flags proof.now ≤ 2) }
    ensures { (result.now ≡ drop absence_head proof.now) × (is_presence result.now ≡ true) }
{
    let n = proof.len();
    &proof[ABSENCE_HEAD..n]
}

pub fn left_part(proof: &[u8]) -> &[u8]
    requires { (is_absence proof.now ≡ true) × (2 < flags proof.now) }
    ensures { (result.now ≡ left_part proof.now) × (is_presence result.now ≡ true) }
{
    let e = ABSENCE_HEAD + get_u32(proof, ABSENCE_HEAD) as usize;
    &proof[ABSENCE_HEAD..e]
}

pub fn right_part(proof: &[u8]) -> &[u8]
    requires { (is_absence proof.now ≡ true) × (2 < flags proof.now) }
    ensures { (result.now ≡ right_part proof.now) × (is_presence result.now ≡ true) }
{
    let e = ABSENCE_HEAD + get_u32(proof, ABSENCE_HEAD) as usize;
    let n = proof.len();
    &proof[e..n]
}
