// Hashes ahead of the links: eight records at a time are hashed side by side, and the links that store them are known when the links are
// looked at one by one. Which records are taken is a guess of anyone's; what is entered is right.
#![tactic(auto)]

ghost use Rattle.std.specs.Prelude.{◌≡◌, true, ◌+◌, ◌*◌, ◌<◌, ◌≤◌, length, IfSome};
ghost use Rattle.terms.specs.declared.Form.{Form};
ghost use Rattle.terms.specs.Bits.{Bytes};
ghost use Rattle.hash.specs.Hash.{hash_bytes};
ghost use Rattle.layout.specs.Headers.{size_right};
ghost use Rattle.layout.specs.Stores.{Has};
ghost use Rattle.check_pass.specs.Passes.{Room, Passed};
ghost use Rattle.check_hash.specs.Known.{HashIs, Known};
ghost use Rattle.nodehash_eight.specs.Eight.{Lanes};
ghost use Rattle.check_ahead.specs.Ahead.{LinkFits, AllSlots, AllLinks, MessageOf, HashAt};

use check_hash::stored;
use hash::{Hash, hash_at, same_hash};
use layout::sizes::LEAF_KIND;
use nodehash_eight::{Message, eight_hashes, hash_in, put_message};
use slots::{child_hash, grant_of};
use store::{child_version_at, kind_at, slot_count, slot_of, wide};
use terms::Form;

// The message of the record in slot c.
fn message_of(form: Form, store: &[u8], c: usize) -> Message
    requires { Has form store.now c }
    ensures { MessageOf form store.now c result }
{
    let s = slot_of(form, store, c);
    if kind_at(form, store, c) == LEAF_KIND {
        let grant = grant_of(s);
        return Message {
            kind: 1,
            left: hash_at(grant, 0),
            right: hash_at(grant, 32),
        };
    }
    let left = hash_at(child_hash(s, false), 0);
    let right = hash_at(child_hash(s, true), 0);
    Message {
        kind: 0,
        left,
        right,
    }
}

// Whether the link stores the hash of its record; then it is known to.
fn enter(
    form: Form,
    store: &[u8],
    c: usize,
    link: u16,
    hash: Hash,
    known: &mut [u16; 16384],
) -> bool
    requires { Has form store.now c × LinkFits form store.now link × HashIs form store.now c (hash_bytes hash) × Known form store.now known.old }
    ensures { Known form store.now known.new }
{
    if !same_hash(stored(form, store, link), hash) {
        return false;
    }
    known[c] = link;
    true
}

// The messages of the records in eight slots, each in its own lane.
fn messages_of(form: Form, store: &[u8], slots: &[usize; 8]) -> [u32; 136]
    requires { AllSlots form store.now slots.now }
    ensures { Lanes 8 (HashAt form store.now slots.now) result }
{
    let mut x = [0u32; 136];
    for l in 0..8 {
        let m = message_of(form, store, slots[l]);
        put_message(&mut x, l, m);
    }
    x
}

// Eight links at once, each with the slot in which its child is guessed; the first that stores another hash ends it.
fn enter_eight(
    form: Form,
    store: &[u8],
    slots: &[usize; 8],
    links: &[u16; 8],
    known: &mut [u16; 16384],
) -> bool
    requires { AllSlots form store.now slots.now × AllLinks form store.now links.now × Known form store.now known.old }
    ensures { Known form store.now known.new }
{
    let x = messages_of(form, store, slots);
    let h = eight_hashes(&x);
    for l in 0..8 {
        if !enter(form, store, slots[l], links[l], hash_in(&h, l), known) {
            return false;
        }
    }
    true
}

// Whether link w + 1 names a child, guessed in a slot c whose hash no link is known to store.
fn is_wanted(form: Form, store: &[u8], n: usize, w: usize, c: usize, known: &[u16; 16384]) -> bool
    requires { Room form store.now n × (w < 2 * n) }
    ensures { Passed result (c < n) }
{
    let j = w / 2;
    if n <= c {
        return false;
    }
    if kind_at(form, store, j) <= LEAF_KIND {
        return false;
    }
    if child_version_at(form, store, j, w % 2 == 1) == 0 {
        return false;
    }
    known[c] == 0
}

// Link w + 1 with those that wait, where it is wanted and its child is guessed in slot c; how many wait then.
fn taken(
    form: Form,
    store: &[u8],
    n: usize,
    w: usize,
    c: usize,
    many: usize,
    known: &[u16; 16384],
    slots: &mut [usize; 8],
    links: &mut [u16; 8],
) -> usize
    requires { Room form store.now n × (w < 2 * n) × (many < 8) × AllSlots form store.now slots.old × AllLinks form store.now links.old }
    ensures all_slots { AllSlots form store.now slots.new × AllLinks form store.now links.new }
    ensures upper_bound { result ≤ 8 }
{
    if !is_wanted(form, store, n, w, c, known) {
        return many;
    }
    slots[many] = c;
    links[many] = w as u16 + 1;
    many + 1
}

// The next eight links that are wanted, from link `from` + 1 on, and where those after them begin; None where there are
// no eight.
fn next_eight(
    form: Form,
    store: &[u8],
    n: usize,
    guess: &[u16; 32768],
    known: &[u16; 16384],
    from: usize,
    slots: &mut [usize; 8],
    links: &mut [u16; 8],
) -> Option<usize>
    requires { Room form store.now n × AllSlots form store.now slots.old × AllLinks form store.now links.old }
    ensures all_slots { AllSlots form store.now slots.new × AllLinks form store.now links.new }
    ensures lower_bound { IfSome result (λ next. from < next) }
{
    let mut many = 0;
    for w in from..2 * n {
        many = taken(form, store, n, w, wide(guess[w]), many, known, slots, links);
        if many == 8 {
            return Some(w + 1);
        }
    }
    None
}

// The links in their order, as long as each stores the hash of the record that is guessed. Where one doesn't, the look at the links one by one
// ends there too; the last few are left to it.
pub fn hash_ahead(form: Form, store: &[u8], guess: &[u16; 32768], known: &mut [u16; 16384])
    requires { (size_right form (length store.now) ≡ true) × Known form store.now known.old }
    ensures { Known form store.now known.new }
{
    let n = slot_count(form, store);
    let mut slots = [0usize; 8];
    let mut links = [1u16; 8];
    let mut w = 0;
    // Steps of any length, which are no count.
    while w < 2 * n {
        let Some(next) = next_eight(form, store, n, guess, known, w, &mut slots, &mut links) else {
            return;
        };
        if !enter_eight(form, store, &slots, &links, known) {
            return;
        }
        w = next;
    }
}
