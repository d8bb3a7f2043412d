// One presence proof among many that are walked side by side: its record, the message of its leaf and of each step, its next hash, and whether it leads to the root.
#![tactic(auto)]

ghost use Rattle.std.specs.Prelude.{◌≡◌, ◌<◌, ◌≤◌, length};
ghost use Rattle.hash.specs.Hash.{hash_bytes};
ghost use Rattle.proofrecords.specs.ProofBytes.{step_count};
ghost use Rattle.proofrecords.specs.Steps.{Room};
ghost use Rattle.verify_neighbours.specs.Neighbours.{leads};
ghost use Rattle.verify_one.specs.Lane.{from, LeafOf, StepOf, EntryOf};

use fields::get_u16;
use hash::{Hash, hash_at, same_hash};
use nodehash_eight::Message;
use proofrecords::{KEY_AT, STEPS_AT, VALUE_AT};
use verify_path::{is_right, sibling, top};

// The bytes of the record at a, with what follows it.
pub fn record_at(p: &[u8], a: usize) -> &[u8]
    requires { a ≤ length p.now }
    ensures { result.now ≡ from p.now a }
{
    let n = p.len();
    &p[a..n]
}

pub fn step_count(x: &[u8]) -> usize
    requires { Room 0 x.now }
    ensures { (result ≡ step_count x.now) × (result < 65536) }
{
    get_u16(x, STEPS_AT) as usize
}

pub fn leaf_message(x: &[u8]) -> Message
    requires { Room 0 x.now }
    ensures { LeafOf x.now result }
{
    Message {
        kind: 1,
        left: hash_at(x, KEY_AT),
        right: hash_at(x, VALUE_AT),
    }
}

// A lane without step i has some message.
pub fn step_message(x: &[u8], i: usize, h: Hash) -> Message
    requires { Room (step_count x.now) x.now }
    ensures { StepOf x.now i h result }
{
    if step_count(x) <= i {
        return Message {
            kind: 0,
            left: h,
            right: h,
        };
    }
    let s = sibling(x, i);
    if is_right(x, i) {
        return Message {
            kind: 0,
            left: s,
            right: h,
        };
    }
    Message {
        kind: 0,
        left: h,
        right: s,
    }
}

// The next hash of a lane that has step i; another keeps its hash.
pub fn next_hash(x: &[u8], i: usize, old: Hash, new: Hash) -> Hash
    requires { Room 0 x.now }
    ensures { ((i < step_count x.now) → result ≡ new) × ((step_count x.now ≤ i) → result ≡ old) }
{
    if i < step_count(x) {
        return new;
    }
    old
}

// Whether a record leads to the root: what is entered for it, or its path by itself.
pub fn settled(root: Hash, x: &[u8], entry: Option<bool>) -> bool
    requires { Room (step_count x.now) x.now × EntryOf (hash_bytes root) x.now entry }
    ensures { result ≡ leads (hash_bytes root) x.now }
{
    match entry {
        Some(leads) => leads,
        None => same_hash(top(x, step_count(x)), root),
    }
}
