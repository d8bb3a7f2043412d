// The steps at a node, at an inner node and at a child, document 01: they call each other, and each child is handed its own run of the batch.
// The bits that are left fall; where they don't, the rank of the function does: child, node, inner node. What is not needed while the
// children are stepped is done in functions of its own, for the stack of 256 bits: docs/FIGURES.md.
#![tactic(auto)]

ghost use Rattle.apply_outcome.specs.Outcomes.{Did};
ghost use Rattle.apply_tip.specs.Stepping.{Here, at_node, at_child};
ghost use Rattle.apply_read.specs.Held.{version_in};
ghost use Rattle.apply_step.specs.Inner.{HereInner};

use apply_guess::find_near;
use apply_inner::settle_in;
use apply_outcome::Outcome;
use apply_read::{Onward, onward_from, unchanged_at};
use apply_tip::at_tip;
use batch_runs::{left_run, right_run};
use place::Place;

// A child without a run is unchanged.
#[cycle(at_child_at_inner_at_node)]
pub fn at_child(
    store: &mut [u8],
    guesses: &[u16; 8192],
    writes: bool,
    new: u32,
    from: usize,
    place: Place,
    version: u32,
    run: &[u8],
) -> Outcome
    requires { Here new writes from store.old place version run.now }
    ensures { Did new writes from store.old store.new (at_child new store.old place version run.now) result }
{
    if run.len() == 0 {
        return unchanged_at(store, guesses, from, version, place);
    }
    at_node(store, guesses, writes, new, from, place, version, run)
}

// The run is for the children. Settling is called at two places that differ in two arguments, so that the compiler makes no one call of them,
// and keeps its locals out of the frames of this recursion.
#[cycle(at_child_at_inner_at_node)]
fn at_inner(
    store: &mut [u8],
    guesses: &[u16; 8192],
    writes: bool,
    new: u32,
    from: usize,
    place: Place,
    slot: usize,
    left: u32,
    right: u32,
    run: &[u8],
) -> Outcome
    requires { HereInner new writes from store.old place slot left right run.now }
    ensures { Did new writes from store.old store.new (at_node new store.old place (version_in store.old slot) run.now) result }
{
    let i = place.count;
    let l = at_child(
        store,
        guesses,
        writes,
        new,
        from,
        place.left(),
        left,
        left_run(run, i),
    );
    let r = at_child(
        store,
        guesses,
        writes,
        new,
        l.reach,
        place.right(),
        right,
        right_run(run, i),
    );
    if writes {
        return settle_in(store, guesses, true, new, new, place, slot, l, r);
    }
    settle_in(store, guesses, false, new, 0, place, slot, l, r)
}

// The node there is for the caller to mark or place.
#[cycle(at_child_at_inner_at_node)]
fn at_node(
    store: &mut [u8],
    guesses: &[u16; 8192],
    writes: bool,
    new: u32,
    from: usize,
    place: Place,
    version: u32,
    run: &[u8],
) -> Outcome
    requires { Here new writes from store.old place version run.now }
    ensures { Did new writes from store.old store.new (at_node new store.old place version run.now) result }
{
    let found = find_near(store, guesses, version, place);
    let onward = onward_from(store, found);
    let Onward::Inner { slot, left, right } = onward else {
        if writes {
            return at_tip(store, true, new, from, place, version, found, run);
        }
        return at_tip(store, false, new, from, place, version, found, run);
    };
    at_inner(
        store, guesses, writes, new, from, place, slot, left, right, run,
    )
}
