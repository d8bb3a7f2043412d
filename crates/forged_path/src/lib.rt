// The messages hashed while checking a presence proof, request 2026-12, from the leaf upwards: the first whose hash is zero or that has a partner
// among the messages of a version's nodes.
#![tactic(auto)]

ghost use Rattle.std.specs.Prelude.{◌≡◌, suc};
ghost use Rattle.hash.specs.Hash.{hash_bytes};
ghost use Rattle.sha256.specs.Sha256.{sha256};
ghost use Rattle.proofrecords.specs.Steps.{Room, step_at};
ghost use Rattle.forgery.specs.Messages.{parent_message};
ghost use Rattle.forged_message.specs.Parts.{message_bytes};
ghost use Rattle.forged_nodes.specs.Nodes.{named_says, Noted};
ghost use Rattle.forged_path.specs.Along.{nodes_in, at_message, is_nothing, along_path};

use forged_message::{Message, hash_of, hashes_to_zero};
use forged_nodes::Named;
use forged_partner::partner;
use hash::{Hash, hash_at};
use proofrecords::{KEY_AT, VALUE_AT};
use verify_path::{is_right, sibling};

// The message of the parent that step i leads to, from a node with hash h.
fn parent_message(p: &[u8], i: usize, h: Hash) -> Message
    requires { Room (suc i) p.now }
    ensures { message_bytes result ≡ parent_message sha256 (hash_bytes h) (step_at i p.now) }
{
    let s = sibling(p, i);
    if is_right(p, i) {
        return Message {
            leaf: false,
            first: s,
            second: h,
        };
    }
    Message {
        leaf: false,
        first: h,
        second: s,
    }
}

// What is named at one message: its own hash is zero, or a node's message is its partner.
fn at_message(store: &[u8], version: u32, words: &[u64; 16384], m: Message) -> Named
    requires { Noted version store.now words.now }
    ensures { named_says result ≡ at_message (nodes_in version store.now) (message_bytes m) }
{
    if hashes_to_zero(m) {
        return Named::Zero(m);
    }
    partner(store, version, words, m)
}

// Whether nothing was named.
pub fn is_nothing(named: Named) -> bool
    ensures { result ≡ is_nothing (named_says named) }
{
    matches!(named, Named::Nothing)
}

// What is named first on the way up the first n steps of a presence proof.
pub fn along(store: &[u8], version: u32, words: &[u64; 16384], p: &[u8], n: usize) -> Named
    requires { Noted version store.now words.now × Room n p.now }
    ensures { named_says result ≡ along_path (nodes_in version store.now) n p.now }
{
    let first = hash_at(p, KEY_AT);
    let second = hash_at(p, VALUE_AT);
    let mut m = Message {
        leaf: true,
        first,
        second,
    };
    for i in 0..n {
        let named = at_message(store, version, words, m);
        if !is_nothing(named) {
            return named;
        }
        m = parent_message(p, i, hash_of(m));
    }
    at_message(store, version, words, m)
}
