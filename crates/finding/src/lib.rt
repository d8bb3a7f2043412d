// What a forged proof would cost, document 02, request 2026-12: of a proof that is accepted against a version's root, nothing if it tells the truth,
// else the messages that it took.
#![tactic(auto)]

ghost use Rattle.std.specs.Prelude.{◌≡◌, true, cond, length};
ghost use Rattle.terms.specs.Records.{presence, absence};
ghost use Rattle.meaning.specs.Calls.{refused};
ghost use Rattle.hash.specs.Hash.{hash_bytes};
ghost use Rattle.sha256.specs.Sha256.{sha256};
ghost use Rattle.proofrecords.specs.ProofBytes.{is_presence, presence_in, is_absence, absence_in, proof_in};
ghost use Rattle.layout.specs.Stores.{store_of};
ghost use Rattle.promises.specs.Calls.{SoundBytes};
ghost use Rattle.forgery.specs.Finding.{finding};
ghost use Rattle.forged_nodes.specs.Nodes.{named_says};
ghost use Rattle.forged_truth.specs.Truth.{SoundVersion, grants_at};
ghost use Rattle.verify_rules.specs.Reading.{judged};
ghost use Rattle.verify.specs.Says.{says};
ghost use Rattle.finding_rules.specs.Reading.{no_grant, found_against, finds};
ghost use Rattle.contracts.specs.Finds.{Answers};
ghost use Rattle.finding.specs.Says.{found_says, root_at};

use check_store::check;
use forged_nodes::Named;
use forged_proof::{in_absence, in_presence};
use forged_truth::{absence_true, presence_true};
use hash::{Hash, put_hash};
use prune_free::is_kept;
use read_root::root_hash;
use read_step::Seen;
use refusal_numbers::Refusal;
use terms::Form;
use verify::verify;

// What is found of a presence proof.
fn of_presence(store: &[u8], version: u32, proof: &[u8]) -> Named
    requires { SoundVersion store.now version × (is_presence proof.now ≡ true) }
    ensures { named_says result ≡ finding sha256 (store_of store.now) version (presence (presence_in proof.now)) }
{
    if presence_true(store, version, proof) {
        return Named::Nothing;
    }
    in_presence(store, version, proof)
}

// What is found of an absence proof.
fn of_absence(store: &[u8], version: u32, proof: &[u8]) -> Named
    requires { SoundVersion store.now version × (is_absence proof.now ≡ true) }
    ensures { named_says result ≡ finding sha256 (store_of store.now) version (absence (absence_in proof.now)) }
{
    if absence_true(store, version, proof) {
        return Named::Nothing;
    }
    in_absence(store, version, proof)
}

// Whether a version holds no grant.
fn holds_none(store: &[u8], version: u32) -> bool
    requires { SoundVersion store.now version }
    ensures { result ≡ no_grant (grants_at store.now version) }
{
    let seen = read_step::root(store, &[], version);
    match seen {
        Seen::Gap => true,
        Seen::Stopped(_) => false,
        Seen::Leaf(_) => false,
        Seen::Inner(_) => false,
    }
}

// What the proof check answers against a root.
fn check_under(root: Hash, key: &[u8], proof: &[u8]) -> Result<Option<Hash>, Refusal>
    requires { length key.now ≡ 32 }
    ensures { says result ≡ judged (hash_bytes root) key.now (proof_in proof.now) }
{
    let mut bytes = [0u8; 32];
    put_hash(&mut bytes, root);
    verify(&bytes, key, proof)
}

// What it answers against the version's root.
fn check_against(
    store: &[u8],
    version: u32,
    key: &[u8],
    proof: &[u8],
) -> Result<Option<Hash>, Refusal>
    requires { SoundVersion store.now version × (length key.now ≡ 32) }
    ensures { says result ≡ judged (root_at store.now version) key.now (proof_in proof.now) }
{
    let read = root_hash(store, &[], version);
    match read {
        Err(_) => Err(Refusal::NotSound),
        Ok(root) => check_under(root, key, proof),
    }
}

// What is found of a proof in a version that holds a grant: nothing where it tells the truth.
fn found_against(store: &[u8], version: u32, key: &[u8], proof: &[u8]) -> Result<Named, Refusal>
    requires { SoundVersion store.now version × (length key.now ≡ 32) }
    ensures { found_says result ≡ found_against sha256 (store_of store.now) version key.now (proof_in proof.now) }
{
    let checked = check_against(store, version, key, proof)?;
    match checked {
        Some(_) => Ok(of_presence(store, version, proof)),
        None => Ok(of_absence(store, version, proof)),
    }
}

// What is found of a proof in a kept version.
fn found_kept(store: &[u8], version: u32, key: &[u8], proof: &[u8]) -> Result<Named, Refusal>
    requires { SoundVersion store.now version × (length key.now ≡ 32) }
    ensures { found_says result ≡ cond (no_grant (grants_at store.now version)) (refused 14) (found_against sha256 (store_of store.now) version key.now (proof_in proof.now)) }
{
    if holds_none(store, version) {
        return Err(Refusal::EmptyVersion);
    }
    found_against(store, version, key, proof)
}

// What is found of a proof in a version of a sound store.
fn found_sound(store: &[u8], version: u32, key: &[u8], proof: &[u8]) -> Result<Named, Refusal>
    requires { SoundBytes store.now × (length key.now ≡ 32) }
    ensures { found_says result ≡ finds sha256 version key.now (proof_in proof.now) (store_of store.now) }
{
    if !is_kept(store, version) {
        return Err(Refusal::NotKept);
    }
    found_kept(store, version, key, proof)
}

// What is found of a proof for a key in a version, where check accepts the store. Any bytes may be handed in; nothing is written.
pub fn finding(store: &[u8], version: u32, key: &[u8], proof: &[u8]) -> Result<Named, Refusal>
    ensures { Answers store.now version key.now proof.now (found_says result) }
{
    if key.len() != 32 {
        return Err(Refusal::Not32Bytes);
    }
    check(Form::Counted, store)?;
    found_sound(store, version, key, proof)
}
