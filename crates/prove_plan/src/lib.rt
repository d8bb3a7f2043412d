// The plan of a proof over lent bytes, document 01, 'Reading and proving', with 2026-03 and 2026-07: the walk and both searches, what the proof shows and how long it is.
// Room is not looked at, and nothing is written.
#![tactic(auto)]

ghost use Rattle.std.specs.Prelude.{◌≡◌, true, length};
ghost use Rattle.meaning.specs.Reading.{seen};
ghost use Rattle.meaning.specs.Proving.{prove_seen};
ghost use Rattle.indexed.specs.Index.{by_table};
ghost use Rattle.layout.specs.Headers.{size_right};
ghost use Rattle.layout.specs.Stores.{store_of};
ghost use Rattle.read_near.specs.Near.{Led};
ghost use Rattle.read_step.specs.declared.Seen.TheVariants.{Leaf};
ghost use Rattle.prove_trails.specs.Searches.{WalkedIn};
ghost use Rattle.prove_shape.specs.Plans.{Plans};
ghost use Rattle.prove_plan.specs.Parts.{ended, proved_at};

use place::same;
use proofrecords::{PRESENCE_HEAD, STEP_SIZE};
use prove_neighbours::absent;
use prove_paths::{Path, Sought, Way};
use prove_shape::{Plan, Shape};
use prove_trails::{Walked, walk};
use read_step::{Seen, refusal};
use refusal_numbers::ReadRefusal;
use slots::key_of;
use store::slot_of;
use terms::Form;

// The plan that shows the end of a walk, in slot i, alone.
fn at_end(walked: Walked, shape: Result<Shape, ReadRefusal>, i: usize, length: usize) -> Plan
    ensures { result ≡ ended walked shape i length }
{
    let trail = walked.trail;
    let slots = trail.slots;
    let place = trail.place;
    let path = Path {
        slots,
        place,
        at: i,
    };
    let shown = Sought {
        way: Way::Somebody,
        path,
    };
    Plan {
        shape,
        first: shown,
        second: shown,
        length,
    }
}

// Plans the proof of a key whose walk has ended at the leaf in slot i.
fn at_leaf(store: &[u8], index: &[u32], kids: &[u16], key: &[u8], walked: Walked, i: usize) -> Plan
    requires { WalkedIn store.now walked × (walked.trail.seen ≡ Leaf i) × Led (store_of store.now) index.now kids.now }
    ensures { Plans store.now key.now (proved_at store.now index.now key.now walked i) result }
{
    if !same(key, key_of(slot_of(Form::Counted, store, i))) {
        return absent(store, index, kids, key, walked);
    }
    let trail = walked.trail;
    let place = trail.place;
    let length = PRESENCE_HEAD + STEP_SIZE * place.count;
    at_end(walked, Ok(Shape::Presence), i, length)
}

// Plans the proof of a key in a version that is kept, and finds by a table, or by the children that a call has guessed for itself.
pub fn plan_of(store: &[u8], index: &[u32], kids: &[u16], version: u32, key: &[u8]) -> Plan
    requires { (size_right Form.Counted (length store.now) ≡ true) × (length key.now ≡ 32) × Led (store_of store.now) index.now kids.now }
    ensures { Plans store.now key.now (prove_seen key.now (seen (by_table index.now (store_of store.now)) version)) result }
{
    let walked = walk(store, index, kids, version, key);
    let trail = walked.trail;
    let seen = trail.seen;
    match seen {
        Seen::Stopped(trouble) => {
            let refused = refusal(trouble);
            at_end(walked, Err(refused), 0, 0)
        }
        Seen::Leaf(i) => at_leaf(store, index, kids, key, walked, i),
        // At a missing child: a walk doesn't end at an inner node.
        _ => absent(store, index, kids, key, walked),
    }
}
