// A new inner node above two outcomes, document 01, 'The tree of a set of grants': those of its children that were updated are placed, and it
// counts the leaves below each.
#![tactic(auto)]

ghost use Rattle.std.specs.Prelude.{◌≡◌, ◌≤◌};
ghost use Rattle.terms.specs.Form.{top32};
ghost use Rattle.place.specs.Place.{place_of};
ghost use Rattle.apply_outcome.specs.Outcomes.{node_leaves};
ghost use Rattle.apply_fork.specs.Fork.{Forks, Forked};

use apply_outcome::{Change, Outcome, child_after, place_updated};
use apply_place::Node;
use place::Place;
use slots::Child;

// How many leaves there are below a node, or at it.
fn leaves_of(node: Node) -> u32
    requires { node_leaves node ≤ top32 }
    ensures { result ≡ node_leaves node }
{
    match node {
        Node::Nothing => 0,
        Node::Leaf { .. } => 1,
        Node::Inner { lefts, rights, .. } => lefts + rights,
    }
}

// A new inner node above two children, with what the old record says of them: those that were updated are placed, the left one before the
// right one.
pub fn fork(
    store: &mut [u8],
    writes: bool,
    new: u32,
    place: Place,
    lchild: Child,
    rchild: Child,
    l: Outcome,
    r: Outcome,
) -> Outcome
    requires { Forks writes store.old place lchild rchild l r }
    ensures { Forked new writes store.old store.new (place_of place) l r result }
{
    let half = place_updated(store, writes, r.reach, place.left(), l);
    let reach = place_updated(store, writes, half, place.right(), r);
    let left = child_after(writes, lchild, l);
    let right = child_after(writes, rchild, r);
    let lnode = l.node;
    let rnode = r.node;
    let lefts = leaves_of(lnode);
    let rights = leaves_of(rnode);
    Outcome {
        change: Change::Updated,
        node: Node::Inner {
            version: new,
            left,
            right,
            lefts,
            rights,
        },
        reach,
    }
}
