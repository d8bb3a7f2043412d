// Whether a proof in form holds for a key, document 01, 'Checking': it is of the key, and its paths lead to the root.
#![tactic(auto)]

ghost use Rattle.std.specs.Prelude.{◌≡◌, true, length, ◌≤◌};
ghost use Rattle.hash.specs.Hash.{hash_bytes};
ghost use Rattle.proofrecords.specs.ProofBytes.{is_presence, is_absence};
ghost use Rattle.verify_neighbours.specs.Neighbours.{leads};
ghost use Rattle.verify_neighbours.specs.Around.{Around};
ghost use Rattle.verify_holds.specs.Holding.{of_key, presence_holds, absence_proof_holds};

use hash::Hash;
use place::same;
use proofrecords::{KEY_AT, VALUE_AT};
use verify_neighbours::{Led, lead_around, leads_to, neighbours_hold};

// Whether a proof is of the key asked for: in both forms its key stands at the same place.
fn is_of(key: &[u8], proof: &[u8]) -> bool
    requires { 40 ≤ length proof.now }
    ensures { result ≡ of_key key.now proof.now }
{
    same(key, &proof[KEY_AT..VALUE_AT])
}

// Whether a presence proof of the key leads to the root. That of another key isn't walked.
pub fn walk_presence(root: Hash, key: &[u8], proof: &[u8]) -> bool
    requires { is_presence proof.now ≡ true }
    ensures { of_key key.now proof.now ≡ true → result ≡ leads (hash_bytes root) proof.now }
{
    if !is_of(key, proof) {
        return false;
    }
    leads_to(root, proof)
}

// Whether the neighbours' paths in an absence proof of the key lead to the root. That of another key isn't walked.
pub fn walk_absence(root: Hash, key: &[u8], proof: &[u8]) -> Led
    requires { is_absence proof.now ≡ true }
    ensures { of_key key.now proof.now ≡ true → Around (hash_bytes root) proof.now result.first result.second }
{
    if !is_of(key, proof) {
        return Led {
            first: false,
            second: false,
        };
    }
    lead_around(root, proof)
}

// Whether a presence proof holds: its key is the one asked for, and its steps lead to the root, as `good` tells.
pub fn presence_holds(root: Hash, good: bool, key: &[u8], proof: &[u8]) -> bool
    requires proof_value { is_presence proof.now ≡ true }
    requires good_value { of_key key.now proof.now ≡ true → good ≡ leads (hash_bytes root) proof.now }
    ensures { result ≡ presence_holds (hash_bytes root) key.now proof.now }
{
    if !is_of(key, proof) {
        return false;
    }
    good
}

// Whether an absence proof holds: its key is the one asked for, and its neighbours, whose paths lead to the root as g and h tell, show that it is absent.
pub fn absence_holds(root: Hash, g: bool, h: bool, key: &[u8], proof: &[u8]) -> bool
    requires proof_value { is_absence proof.now ≡ true }
    requires around { of_key key.now proof.now ≡ true → Around (hash_bytes root) proof.now g h }
    ensures { result ≡ absence_proof_holds (hash_bytes root) key.now proof.now }
{
    if !is_of(key, proof) {
        return false;
    }
    neighbours_hold(root, g, h, key, proof)
}
