// The messages of a version's nodes, request 2026-12, read slot by slot: each node is hashed once, and the first word of its hash noted; the first whose
// hash is zero. A node is hashed again only where that word agrees.
#![tactic(auto)]

ghost use Rattle.std.specs.Prelude.{◌≡◌, true, length};
ghost use Rattle.sha256.specs.Sha256.{sha256};
ghost use Rattle.layout.specs.Headers.{size_right};
ghost use Rattle.layout.specs.Stores.{slot_in, store_of, Has};
ghost use Rattle.forgery.specs.Messages.{node_messages};
ghost use Rattle.forgery.specs.Finding.{zero_among};
ghost use Rattle.forged_nodes.specs.Nodes.{named_says, WordHere, Noted, zero_here};

use forged_message::{Message, hash_word, hashes_to_zero};
use forged_slot::{record_message, stands_in};
use store::{slot_count, slot_of};
use terms::Form;

// What was found: nothing, two different messages with equal hash, or one whose hash is zero.
#[derive(Clone, Copy)]
pub enum Named {
    Nothing,
    Two { node: Message, checked: Message },
    Zero(Message),
}

// The first word of the node's hash; 0 where it is no node.
fn word_here(store: &[u8], i: usize, version: u32) -> u64
    requires { Has Form.Counted store.now i }
    ensures { WordHere version (slot_in Form.Counted i store.now) result }
{
    if !stands_in(store, i, version) {
        return 0;
    }
    hash_word(record_message(slot_of(Form::Counted, store, i)))
}

// Notes the first word of each node's hash.
pub fn note_words(store: &[u8], version: u32, words: &mut [u64; 16384])
    requires { (size_right Form.Counted (length store.now) ≡ true) × (length words.old ≡ 16384) }
    ensures { Noted version store.now words.new }
{
    let n = slot_count(Form::Counted, store);
    for i in 0..n {
        words[i] = word_here(store, i, version);
    }
}

// Whether it is a node whose hash is zero; noted is the first word of its hash.
fn zero_here(store: &[u8], i: usize, version: u32, noted: u64) -> bool
    requires { Has Form.Counted store.now i × WordHere version (slot_in Form.Counted i store.now) noted }
    ensures { result ≡ zero_here version (slot_in Form.Counted i store.now) }
{
    if noted != 0 {
        return false;
    }
    if !stands_in(store, i, version) {
        return false;
    }
    hashes_to_zero(record_message(slot_of(Form::Counted, store, i)))
}

// The first node of a version whose hash is zero.
pub fn zero_node(store: &[u8], version: u32, words: &[u64; 16384]) -> Named
    requires { Noted version store.now words.now }
    ensures { named_says result ≡ zero_among sha256 (node_messages version (store_of store.now).slots) }
{
    let n = slot_count(Form::Counted, store);
    for i in 0..n {
        if zero_here(store, i, version, words[i]) {
            let node = record_message(slot_of(Form::Counted, store, i));
            return Named::Zero(node);
        }
    }
    Named::Nothing
}
