// The step at the root, document 01: the old root ends, and the new one, if any, has the new version and is placed last.
#![tactic(auto)]

ghost use Rattle.std.specs.Prelude.{◌≡◌};
ghost use Rattle.nodehash.specs.Node.{leaf_hash, inner_hash};
ghost use Rattle.batch.specs.Batch.{asks};
ghost use Rattle.steps.specs.Step as step;
ghost use Rattle.apply_outcome.specs.Outcomes.{Did};
ghost use Rattle.apply_read.specs.Standing.{tree_here};
ghost use Rattle.apply_root.specs.Root.{new_root_says, HereRoot};

use apply_end::mark_changed;
use apply_outcome::{Change, Outcome};
use apply_place::{Node, place_node};
use apply_step::at_child;
use place::Place;

// The node with the new version.
fn new_root(node: Node, new: u32) -> Node
    ensures { result ≡ new_root_says new node }
{
    match node {
        Node::Nothing => Node::Nothing,
        Node::Leaf {
            version: _,
            key,
            value,
        } => Node::Leaf {
            version: new,
            key,
            value,
        },
        Node::Inner {
            version: _,
            left,
            right,
            lefts,
            rights,
        } => Node::Inner {
            version: new,
            left,
            right,
            lefts,
            rights,
        },
    }
}

// A batch on the whole tree; version 0 where there is no root. The reach is that of all new records.
pub fn at_root(
    store: &mut [u8],
    guesses: &[u16; 8192],
    writes: bool,
    new: u32,
    top: Place,
    version: u32,
    batch: &[u8],
) -> Outcome
    requires { HereRoot new writes store.old top version batch.now }
    ensures { Did new writes 0 store.old store.new (step.step_root leaf_hash inner_hash new (tree_here store.old top version) (asks batch.now)) result }
{
    let below = at_child(store, guesses, writes, new, 0, top, version, batch);
    mark_changed(store, guesses, writes, Change::Deleted, version, top, new);
    let change = below.change;
    let was = below.node;
    let node = new_root(was, new);
    let reach = place_node(store, writes, below.reach, top, node);
    Outcome {
        change,
        node,
        reach,
    }
}
