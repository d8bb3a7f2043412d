// Growing a subtree, document 01: a run of inserts with no node there; at a leaf, with the leaf if it stays.
#![tactic(auto)]

ghost use Rattle.std.specs.Prelude.{◌-◌, ◌≡◌};
ghost use Rattle.nodehash.specs.Node.{leaf_hash, inner_hash};
ghost use Rattle.place.specs.Place.{place_of};
ghost use Rattle.batch.specs.Batch.{asks};
ghost use Rattle.steps.specs.Step as step;
ghost use Rattle.apply_place.specs.declared.Node.TheVariants.{Leaf, Nothing};
ghost use Rattle.apply_outcome.specs.declared.Change.TheVariants.{Updated, Unchanged};
ghost use Rattle.apply_outcome.specs.Outcomes.{Did};
ghost use Rattle.apply_inserts.specs.Inserts.{stays_says, stays_at};
ghost use Rattle.apply_grow.specs.Growing.{Grows};

use apply_fork::fork;
use apply_inserts::{Few, Grant, stays_at, to_grow};
use apply_outcome::{Change, Outcome, child_of};
use apply_place::Node;
use batch_runs::{left_run, right_run};
use hash::Hash;
use place::Place;

// What grows from no grant: nothing. This function and the next are not inlined, since what `grow` holds is stack for each of 256 bits.
#[inline(never)]
fn none_grown(from: usize) -> Outcome
    ensures { result ≡ record { change = Unchanged; node = Nothing; reach = from } }
{
    Outcome {
        change: Change::Unchanged,
        node: Node::Nothing,
        reach: from,
    }
}

// What grows from one grant: its leaf.
#[inline(never)]
fn leaf_grown(new: u32, from: usize, key: Hash, value: Hash) -> Outcome
    ensures { result ≡ record { change = Updated; node = Leaf new key value; reach = from } }
{
    Outcome {
        change: Change::Updated,
        node: Node::Leaf {
            version: new,
            key,
            value,
        },
        reach: from,
    }
}

// Grows the subtree at a place; the node there is for the parent to place. The leaf that stays is handed down as it is: what a call keeps
// while it calls itself is stack for each of 256 bits.
pub fn grow(
    store: &mut [u8],
    writes: bool,
    new: u32,
    from: usize,
    place: Place,
    stays: Option<Grant>,
    run: &[u8],
) -> Outcome
    requires { Grows new writes from store.old place stays run.now }
    ensures { Did new writes from store.old store.new (step.grow leaf_hash inner_hash new (256 - place.count) (place_of place) (stays_at (place_of place) (stays_says stays)) (asks run.now)) result }
{
    let here = stays_at(stays, place);
    let grants = to_grow(here, run);
    match grants {
        Few::Nothing => none_grown(from),
        Few::One { key, value } => leaf_grown(new, from, key, value),
        Few::Several => {
            let i = place.count;
            let l = grow(
                store,
                writes,
                new,
                from,
                place.left(),
                stays,
                left_run(run, i),
            );
            let r = grow(
                store,
                writes,
                new,
                l.reach,
                place.right(),
                stays,
                right_run(run, i),
            );
            let none = child_of(Node::Nothing);
            fork(store, writes, new, place, none, none, l, r)
        }
    }
}
