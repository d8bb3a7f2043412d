// The step where no inner node stands, document 01: at no node a subtree grows, at a leaf the step is the leaf's.
#![tactic(auto)]

ghost use Rattle.apply_outcome.specs.Outcomes.{Did};
ghost use Rattle.apply_tip.specs.Stepping.{AtTip, at_node};

use apply_grow::grow;
use apply_leaf::at_leaf;
use apply_outcome::Outcome;
use apply_place::Node;
use apply_read::node_in;
use place::Place;

pub fn at_tip(
    store: &mut [u8],
    writes: bool,
    new: u32,
    from: usize,
    place: Place,
    version: u32,
    found: Option<usize>,
    run: &[u8],
) -> Outcome
    requires { AtTip new writes from store.old place version found run.now }
    ensures { Did new writes from store.old store.new (at_node new store.old place version run.now) result }
{
    let Some(i) = found else {
        return grow(store, writes, new, from, place, None, run);
    };
    let node = node_in(store, i);
    let Node::Leaf {
        version: v,
        key,
        value,
    } = node
    else {
        return grow(store, writes, new, from, place, None, run);
    };
    at_leaf(store, writes, new, from, place, v, key, value, run)
}
