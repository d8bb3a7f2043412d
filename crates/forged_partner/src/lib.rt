// The first of a version's nodes whose message is another than a given one and has its hash, request 2026-12. A node is hashed again only where the first word
// of its hash, which was noted, agrees.
#![tactic(auto)]

ghost use Rattle.std.specs.Prelude.{◌≡◌};
ghost use Rattle.sha256.specs.Sha256.{sha256};
ghost use Rattle.layout.specs.Stores.{slot_in, store_of, Has};
ghost use Rattle.forgery.specs.Messages.{node_messages};
ghost use Rattle.forgery.specs.Finding.{partner};
ghost use Rattle.forged_message.specs.Parts.{message_bytes, first_word};
ghost use Rattle.forged_nodes.specs.Nodes.{named_says, WordHere, Noted};
ghost use Rattle.forged_partner.specs.Partner.{partner_here};

use forged_message::{Message, collides, hash_word};
use forged_nodes::Named;
use forged_slot::{record_message, stands_in};
use store::{slot_count, slot_of};
use terms::Form;

// Whether it is a node whose message is another than m and has the same hash; noted is the first word of its hash, and word that of m's.
fn partner_here(store: &[u8], i: usize, version: u32, noted: u64, word: u64, m: Message) -> bool
    requires { Has Form.Counted store.now i × WordHere version (slot_in Form.Counted i store.now) noted × (word ≡ first_word (sha256 (message_bytes m))) }
    ensures { result ≡ partner_here version (message_bytes m) (slot_in Form.Counted i store.now) }
{
    if noted != word {
        return false;
    }
    if !stands_in(store, i, version) {
        return false;
    }
    collides(record_message(slot_of(Form::Counted, store, i)), m)
}

// The first node of a version whose message is another than m and has the same hash.
pub fn partner(store: &[u8], version: u32, words: &[u64; 16384], m: Message) -> Named
    requires { Noted version store.now words.now }
    ensures { named_says result ≡ partner sha256 (message_bytes m) (node_messages version (store_of store.now).slots) }
{
    let n = slot_count(Form::Counted, store);
    let word = hash_word(m);
    for i in 0..n {
        if partner_here(store, i, version, words[i], word, m) {
            let node = record_message(slot_of(Form::Counted, store, i));
            return Named::Two { node, checked: m };
        }
    }
    Named::Nothing
}
