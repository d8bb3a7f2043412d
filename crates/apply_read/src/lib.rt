// The node that a slot holds, with its grant or what it says of its children, and the node (version, place) of a tree that stands.
#![tactic(auto)]

ghost use Rattle.std.specs.Prelude.{◌≡◌};
ghost use Rattle.layout.specs.Slots.{kid_on};
ghost use Rattle.layout.specs.Stores.{slot_in, SlotWithin};
ghost use Rattle.slots.specs.Answer.{child_says};
ghost use Rattle.apply_guess.specs.Guess.{Once};
ghost use Rattle.apply_read.specs.Held.{Used, NodeHeld, UsedAt, GoesOn};
ghost use Rattle.apply_read.specs.Standing.{tree_here, Standing, Unchanged};

use apply_guess::find_near;
use apply_outcome::{Change, Outcome};
use apply_place::Node;
use hash::hash_at;
use place::Place;
use slots::{Child, child_hash, key_of, value_of};
use slots_form::is_leaf;
use store::{child_count_at, child_version_at, slot_of, version_at};
use terms::Form;

// What the inner record in slot i says of the child on a side.
fn child_on(store: &[u8], i: usize, right: bool) -> Child
    requires { SlotWithin Form.Counted i store.now }
    ensures { child_says result ≡ kid_on right (slot_in Form.Counted i store.now) }
{
    let version = child_version_at(Form::Counted, store, i, right);
    let hash = hash_at(child_hash(slot_of(Form::Counted, store, i), right), 0);
    Child { version, hash }
}

// A slot that is used holds a leaf or an inner record.
pub fn node_in(store: &[u8], i: usize) -> Node
    requires { Used store.now i }
    ensures { NodeHeld store.now i result }
{
    let s = slot_of(Form::Counted, store, i);
    let version = version_at(Form::Counted, store, i);
    if is_leaf(s) {
        let key = hash_at(key_of(s), 0);
        let value = hash_at(value_of(s), 0);
        return Node::Leaf {
            version,
            key,
            value,
        };
    }
    let left = child_on(store, i, false);
    let right = child_on(store, i, true);
    let lefts = child_count_at(Form::Counted, store, i, false);
    let rights = child_count_at(Form::Counted, store, i, true);
    Node::Inner {
        version,
        left,
        right,
        lefts,
        rights,
    }
}

// Where the steps go on to from what was found: the slot of an inner node and the versions of its children.
#[derive(Clone, Copy)]
pub enum Onward {
    End,
    Inner { slot: usize, left: u32, right: u32 },
}

pub fn onward_from(store: &[u8], found: Option<usize>) -> Onward
    requires { UsedAt store.now found }
    ensures { GoesOn store.now found result }
{
    let Some(slot) = found else {
        return Onward::End;
    };
    let s = slot_of(Form::Counted, store, slot);
    if is_leaf(s) {
        return Onward::End;
    }
    let left = child_version_at(Form::Counted, store, slot, false);
    let right = child_version_at(Form::Counted, store, slot, true);
    Onward::Inner { slot, left, right }
}

// The outcome where nothing changes.
pub fn unchanged_at(
    store: &[u8],
    guesses: &[u16; 8192],
    from: usize,
    version: u32,
    place: Place,
) -> Outcome
    requires { Standing store.now place version × Once store.now version place }
    ensures { Unchanged from (tree_here store.now place version) result }
{
    let found = find_near(store, guesses, version, place);
    let Some(i) = found else {
        return Outcome {
            change: Change::Unchanged,
            node: Node::Nothing,
            reach: from,
        };
    };
    let node = node_in(store, i);
    Outcome {
        change: Change::Unchanged,
        node,
        reach: from,
    }
}
