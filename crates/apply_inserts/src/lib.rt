// What grows at a place, document 01: the inserts of a run, and the leaf if it stays.
#![tactic(auto)]

ghost use Rattle.std.specs.Prelude.{◌≡◌, true, [], ◌∷◌, ◌≤◌, ◌<◌};
ghost use Rattle.terms.specs.Bits.{begins};
ghost use Rattle.hash.specs.Hash.{hash_bytes};
ghost use Rattle.place.specs.Place.{place_of, Proper};
ghost use Rattle.batch.specs.Batch.{count, asks};
ghost use Rattle.batch.specs.Records.{ask_at, inserts};
ghost use Rattle.steps.specs.Step as step;
ghost use Rattle.apply_inserts.specs.Inserts.{stays_says, stays_at, FewSays, NextInsert};

use batch::{grant, record_count};
use batch_form::is_insert;
use hash::{Hash, hash_at, put_hash};
use place::{Place, begins};

// A key and its value, as a leaf that stays has them.
#[derive(Clone, Copy)]
pub struct Grant {
    pub key: Hash,
    pub value: Hash,
}

// The grants of a subtree that grows: none, one, or two or more.
#[derive(Clone, Copy)]
pub enum Few {
    Nothing,
    One { key: Hash, value: Hash },
    Several,
}

// The first insert of a run from a record on, or the end; deletes are passed over.
fn next_insert(run: &[u8], from: usize) -> usize
    requires { from ≤ count run.now }
    ensures { NextInsert run.now from result }
{
    let n = record_count(run);
    for i in from..n {
        if is_insert(run, i) {
            return i;
        }
    }
    n
}

// The grant of an insert.
fn one_insert(run: &[u8], i: usize) -> Few
    requires { (i < count run.now) × (inserts (ask_at i run.now) ≡ true) }
    ensures { FewSays result (step.inserts (ask_at i run.now ∷ [])) }
{
    let g = grant(run, i);
    let key = hash_at(g, 0);
    let value = hash_at(g, 32);
    Few::One { key, value }
}

// The inserts of a run, and the leaf if one stays.
pub fn to_grow(stays: Option<Grant>, run: &[u8]) -> Few
    ensures { FewSays result (step.to_grow (stays_says stays) (asks run.now)) }
{
    let n = record_count(run);
    let i = next_insert(run, 0);
    match stays {
        None => {
            if n <= i {
                return Few::Nothing;
            }
            if next_insert(run, i + 1) < n {
                return Few::Several;
            }
            one_insert(run, i)
        }
        Some(Grant { key, value }) => {
            if i < n {
                return Few::Several;
            }
            Few::One { key, value }
        }
    }
}

// Whether the 32 bytes of a hash begin with a place.
fn hash_begins(h: Hash, place: Place) -> bool
    requires { Proper place }
    ensures { result ≡ begins (place_of place) (hash_bytes h) }
{
    let mut bytes = [0u8; 32];
    put_hash(&mut bytes, h);
    begins(&bytes, place)
}

// The leaf that stays, where the place is on its way.
pub fn stays_at(stays: Option<Grant>, place: Place) -> Option<Grant>
    requires { Proper place }
    ensures { stays_says result ≡ stays_at (place_of place) (stays_says stays) }
{
    stays.filter(|leaf| hash_begins(leaf.key, place))
}
