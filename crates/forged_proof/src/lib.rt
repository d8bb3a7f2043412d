// The search for a finding of a proof where it lies in bytes, request 2026-12: along its paths, the left one first, then over a version's nodes.
#![tactic(auto)]

ghost use Rattle.std.specs.Prelude.{◌≡◌, true, cond, length};
ghost use Rattle.layout.specs.Headers.{size_right};
ghost use Rattle.proofrecords.specs.ProofBytes.{is_presence, is_absence};
ghost use Rattle.forged_nodes.specs.Nodes.{named_says, Noted};
ghost use Rattle.forged_path.specs.Along.{nodes_in};
ghost use Rattle.forged_proof.specs.Search.{on_path, on_two, on_neighbours, or_zero, in_presence, in_absence};

use fields::get_u16;
use forged_nodes::{Named, note_words, zero_node};
use forged_path::{along, is_nothing};
use neighbour_parts::{is_lone, left_part, lone_part, right_part};
use proofrecords::STEPS_AT;
use terms::Form;

// Along the path of a presence proof.
fn on_path(store: &[u8], version: u32, words: &[u64; 16384], p: &[u8]) -> Named
    requires { Noted version store.now words.now × (is_presence p.now ≡ true) }
    ensures { named_says result ≡ on_path (nodes_in version store.now) p.now }
{
    let n = get_u16(p, STEPS_AT) as usize;
    along(store, version, words, p, n)
}

// Along two paths.
fn on_two(store: &[u8], version: u32, words: &[u64; 16384], l: &[u8], r: &[u8]) -> Named
    requires { Noted version store.now words.now × (is_presence l.now ≡ true) × (is_presence r.now ≡ true) }
    ensures { named_says result ≡ on_two (nodes_in version store.now) l.now r.now }
{
    let named = on_path(store, version, words, l);
    if !is_nothing(named) {
        return named;
    }
    on_path(store, version, words, r)
}

// Along the paths of an absence proof's neighbours.
fn on_neighbours(store: &[u8], version: u32, words: &[u64; 16384], proof: &[u8]) -> Named
    requires { Noted version store.now words.now × (is_absence proof.now ≡ true) }
    ensures { named_says result ≡ on_neighbours (nodes_in version store.now) proof.now }
{
    if is_lone(proof) {
        return on_path(store, version, words, lone_part(proof));
    }
    on_two(store, version, words, left_part(proof), right_part(proof))
}

// What was named, else a node whose hash is zero.
fn or_zero(store: &[u8], version: u32, words: &[u64; 16384], named: Named) -> Named
    requires { Noted version store.now words.now }
    ensures { named_says result ≡ or_zero (nodes_in version store.now) (named_says named) }
{
    if !is_nothing(named) {
        return named;
    }
    zero_node(store, version, words)
}

// The finding of a proof: each node is hashed once, then the proof's messages are held against them. Both kinds call it, so the compiler keeps it a call
// and its table is not on the stack while the store is checked.
fn in_proof(store: &[u8], version: u32, single: bool, proof: &[u8]) -> Named
    requires { (size_right Form.Counted (length store.now) ≡ true) × (cond single (is_presence proof.now) (is_absence proof.now) ≡ true) }
    ensures { named_says result ≡ cond single (in_presence (nodes_in version store.now) proof.now) (in_absence (nodes_in version store.now) proof.now) }
{
    let mut words = [0u64; 16384];
    note_words(store, version, &mut words);
    if single {
        return or_zero(
            store,
            version,
            &words,
            on_path(store, version, &words, proof),
        );
    }
    or_zero(
        store,
        version,
        &words,
        on_neighbours(store, version, &words, proof),
    )
}

// The finding of a presence proof.
pub fn in_presence(store: &[u8], version: u32, proof: &[u8]) -> Named
    requires { (size_right Form.Counted (length store.now) ≡ true) × (is_presence proof.now ≡ true) }
    ensures { named_says result ≡ in_presence (nodes_in version store.now) proof.now }
{
    in_proof(store, version, true, proof)
}

// The finding of an absence proof.
pub fn in_absence(store: &[u8], version: u32, proof: &[u8]) -> Named
    requires { (size_right Form.Counted (length store.now) ≡ true) × (is_absence proof.now ≡ true) }
    ensures { named_says result ≡ in_absence (nodes_in version store.now) proof.now }
{
    in_proof(store, version, false, proof)
}
