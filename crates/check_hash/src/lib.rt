// Whether a stored hash is that of a record, each record hashed once: the link whose stored hash was found to be right is kept for the
// record's slot, and later links are compared with it. A link is one side of a slot, numbered from 1.
#![tactic(auto)]

ghost use Rattle.std.specs.Prelude.{◌≡◌, ◌≤◌};
ghost use Rattle.hash.specs.Hash.{hash_bytes};
ghost use Rattle.layout.specs.Stores.{Has};
ghost use Rattle.check_pass.specs.Passes.{Passed};
ghost use Rattle.check_hash.specs.Known.{HashIs, Stored, Known, link_slot, stored_at};

use hash::{Hash, hash_at, same_hash};
use layout::sizes::LEAF_KIND;
use nodehash::{inner_hash, leaf_hash};
use slots::{child_hash, grant_of};
use store::{kind_at, slot_of, wide};
use terms::Form;

// The hash that a link stores.
pub fn stored(form: Form, store: &[u8], link: u16) -> Hash
    requires { (1 ≤ link) × Has form store.now (link_slot link) }
    ensures { hash_bytes result ≡ stored_at form store.now link }
{
    let k = wide(link) - 1;
    let s = slot_of(form, store, k / 2);
    hash_at(child_hash(s, k % 2 == 1), 0)
}

// The hash of the record in slot c.
fn record_hash(form: Form, store: &[u8], c: usize) -> Hash
    requires { Has form store.now c }
    ensures { HashIs form store.now c (hash_bytes result) }
{
    let s = slot_of(form, store, c);
    if kind_at(form, store, c) == LEAF_KIND {
        return leaf_hash(grant_of(s));
    }
    let left = hash_at(child_hash(s, false), 0);
    let right = hash_at(child_hash(s, true), 0);
    inner_hash(left, right)
}

// Whether the hash that a link stores is that of the record in slot c: by the link that is known to store it, or by hashing the record.
pub fn hash_right(
    form: Form,
    store: &[u8],
    c: usize,
    link: u16,
    hash: Hash,
    known: &mut [u16; 16384],
) -> bool
    requires { Has form store.now c × Stored form store.now link hash × Known form store.now known.old }
    ensures known { Known form store.now known.new }
    ensures passed { Passed result (HashIs form store.now c (hash_bytes hash)) }
{
    let first = known[c];
    if first != 0 {
        return same_hash(stored(form, store, first), hash);
    }
    if !same_hash(record_hash(form, store, c), hash) {
        return false;
    }
    known[c] = link;
    true
}
