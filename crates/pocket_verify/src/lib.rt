// The proof check of the pocket profile over hostile bytes, document 02, request 2026-14: 12, 10, 19, then as the full check.
#![tactic(auto)]

ghost use Rattle.std.specs.Prelude.{◌≡◌, true};
ghost use Rattle.terms.specs.Records.{absence};
ghost use Rattle.pocket.specs.Pocket.{short_path, small};
ghost use Rattle.proofrecords.specs.ProofBytes.{is_presence, presence_in, is_absence, absence_in};
ghost use Rattle.verify_rules.specs.Pocket.{PocketVerifies};
ghost use Rattle.verify_rules.specs.Reading.{outside};

use fields::get_u16;
use neighbour_parts::{is_lone, left_part, lone_part, right_part};
use pocket::POCKET_STEPS;
use proofrecords::STEPS_AT;
use refusal_numbers::Refusal;
use verify_call::grants_verify;
use verify_form::{is_absence, is_presence};

// Whether a presence proof has at most 32 steps.
fn short_path(p: &[u8]) -> bool
    requires { is_presence p.now ≡ true }
    ensures { result ≡ short_path (presence_in p.now) }
{
    get_u16(p, STEPS_AT) as usize <= POCKET_STEPS
}

// Whether each neighbour that an absence proof shows has at most 32 steps.
fn short_neighbours(p: &[u8]) -> bool
    requires { is_absence p.now ≡ true }
    ensures { result ≡ small (absence (absence_in p.now)) }
{
    if is_lone(p) {
        return short_path(lone_part(p));
    }
    if !short_path(left_part(p)) {
        return false;
    }
    short_path(right_part(p))
}

// Whether the bytes are a proof in form outside the profile.
fn is_outside(p: &[u8]) -> bool
    ensures { result ≡ outside p.now }
{
    if is_presence(p) {
        return !short_path(p);
    }
    if is_absence(p) {
        return !short_neighbours(p);
    }
    false
}

// The pocket check for callers in other languages: as `grants_verify`, with 19 for a proof in form that is outside the profile.
pub fn grants_pocket_verify(root: &[u8], key: &[u8], proof: &[u8], found: &mut [u8; 33]) -> u32
    ensures { PocketVerifies root.now key.now proof.now found.old result found.new }
{
    if root.len() != 32 {
        return Refusal::Not32Bytes.number();
    }
    if key.len() != 32 {
        return Refusal::Not32Bytes.number();
    }
    if is_outside(proof) {
        return Refusal::OutsidePocket.number();
    }
    grants_verify(root, key, proof, found)
}
