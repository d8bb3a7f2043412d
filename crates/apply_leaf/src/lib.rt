// The step at a leaf, document 01: what the run asks for its key, and inserts beside it.
#![tactic(auto)]

ghost use Rattle.std.specs.Prelude.{◌≡◌, ◌-◌, ◌<◌};
ghost use Rattle.terms.specs.Bits.{same_bytes};
ghost use Rattle.terms.specs.Records.{grant, ask_key};
ghost use Rattle.hash.specs.Hash.{hash_bytes};
ghost use Rattle.nodehash.specs.Node.{leaf_hash, inner_hash};
ghost use Rattle.place.specs.Place.{place_of};
ghost use Rattle.batch.specs.Batch.{count, asks};
ghost use Rattle.batch.specs.Records.{ask_at};
ghost use Rattle.steps.specs.Step as step;
ghost use Rattle.apply_outcome.specs.Outcomes.{Did};
ghost use Rattle.apply_alone.specs.Alone.{OwnSays};
ghost use Rattle.apply_leaf.specs.Leaf.{is_more, staying_says, AtLeaf};

use apply_alone::{Own, alone};
use apply_grow::grow;
use apply_inserts::Grant;
use apply_outcome::Outcome;
use batch::{grant, record_count};
use batch_form::is_insert;
use hash::{Hash, hash_at, same_hash};
use place::Place;

// Whether record i of a run asks for a key.
fn asks_for(run: &[u8], i: usize, key: Hash) -> bool
    requires { i < count run.now }
    ensures { result ≡ same_bytes (ask_key (ask_at i run.now)) (hash_bytes key) }
{
    let k = batch::key(run, i);
    same_hash(hash_at(k, 0), key)
}

fn own_ask(run: &[u8], key: Hash) -> Own
    ensures { OwnSays result (step.own_ask (hash_bytes key) (asks run.now)) }
{
    let n = record_count(run);
    for i in 0..n {
        if asks_for(run, i, key) {
            if is_insert(run, i) {
                let g = grant(run, i);
                return Own::Insert {
                    value: hash_at(g, 32),
                };
            }
            return Own::Delete;
        }
    }
    Own::Nothing
}

// Whether a run inserts another key.
fn inserts_more(run: &[u8], key: Hash) -> bool
    ensures { result ≡ is_more (step.other_inserts (hash_bytes key) (asks run.now)) }
{
    let n = record_count(run);
    for i in 0..n {
        if is_insert(run, i) && !asks_for(run, i, key) {
            return true;
        }
    }
    false
}

// The leaf that stays beside inserts: one whose key nothing is asked for.
fn staying(own: Own, key: Hash, value: Hash) -> Option<Grant>
    ensures { result ≡ staying_says own key value }
{
    let Own::Nothing = own else {
        return None;
    };
    Some(Grant { key, value })
}

// The step at a leaf (version, place) with its grant.
pub fn at_leaf(
    store: &mut [u8],
    writes: bool,
    new: u32,
    from: usize,
    place: Place,
    version: u32,
    key: Hash,
    value: Hash,
    run: &[u8],
) -> Outcome
    requires { AtLeaf new writes from store.old place key run.now }
    ensures { Did new writes from store.old store.new (step.step_leaf leaf_hash inner_hash new (256 - place.count) (place_of place) version (grant (hash_bytes key) (hash_bytes value)) (asks run.now)) result }
{
    let own = own_ask(run, key);
    if inserts_more(run, key) {
        let stays = staying(own, key, value);
        return grow(store, writes, new, from, place, stays, run);
    }
    alone(new, from, version, key, value, own)
}
