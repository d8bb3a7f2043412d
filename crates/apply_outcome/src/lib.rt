// What a step leaves at a place, document 01, 'The tree of a set of grants': updated, deleted or unchanged, and the node that now stands there.
#![tactic(auto)]

ghost use Rattle.std.specs.Prelude.{◌≡◌};
ghost use Rattle.place.specs.Place.{place_of};
ghost use Rattle.slots.specs.Answer.{child_says};
ghost use Rattle.apply_place.specs.Reach.{Places, Placed};
ghost use Rattle.apply_outcome.specs.Outcomes.{node_child, updated_says, Kept, ChildAfter};

use apply_place::{Node, place_node};
use hash::{Hash, no_hash};
use nodehash::{grant_hash, inner_hash};
use place::Place;
use slots::Child;

#[derive(Clone, Copy)]
pub enum Change {
    Updated,
    Deleted,
    Unchanged,
}

// The node itself is for its parent to place; the reach is that of the new records strictly below it.
#[derive(Clone, Copy)]
pub struct Outcome {
    pub change: Change,
    pub node: Node,
    pub reach: usize,
}

// What the parent's record says of a node.
pub fn child_of(node: Node) -> Child
    ensures { child_says result ≡ node_child node }
{
    match node {
        Node::Nothing => {
            let hash = no_hash();
            Child { version: 0, hash }
        }
        Node::Leaf {
            version,
            key,
            value,
        } => {
            let hash = grant_hash(key, value);
            Child { version, hash }
        }
        Node::Inner {
            version,
            left,
            right,
            lefts: _,
            rights: _,
        } => {
            let hash = inner_hash(left.hash, right.hash);
            Child { version, hash }
        }
    }
}

// What the new parent's record says of a child that has an outcome: of an unchanged one what the old record says. Nothing is hashed where nothing
// is written.
pub fn child_after(writes: bool, old: Child, out: Outcome) -> Child
    requires { Kept writes old out }
    ensures { ChildAfter writes out result }
{
    if !writes {
        return old;
    }
    let change = out.change;
    let Change::Unchanged = change else {
        let node = out.node;
        return child_of(node);
    };
    old
}

// Places the node of an outcome, if it was updated, and answers how far the new records reach.
pub fn place_updated(
    store: &mut [u8],
    writes: bool,
    from: usize,
    place: Place,
    out: Outcome,
) -> usize
    requires { Places writes store.old from place (updated_says (place_of place) out) }
    ensures { Placed writes from (updated_says (place_of place) out) store.old store.new result }
{
    let change = out.change;
    let Change::Updated = change else {
        return from;
    };
    let node = out.node;
    place_node(store, writes, from, place, node)
}
