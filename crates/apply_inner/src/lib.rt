// What becomes of an inner node by the outcomes at its children, document 01: unchanged, deleted, a lone leaf moved up, or a new inner node.
#![tactic(auto)]

ghost use Rattle.std.specs.Prelude.{◌≡◌};
ghost use Rattle.apply_end.specs.Ending.{Ends};
ghost use Rattle.apply_inner.specs.Settling.{both_stayed, settled_says, EndsOrStays, Renews, Renewed, Settles, Settled};

use apply_end::{Remains, mark_children, remains_of};
use apply_fork::fork;
use apply_outcome::{Change, Outcome};
use apply_place::Node;
use apply_read::node_in;
use place::Place;
use slots::Child;

// Whether both children are unchanged.
fn both_stayed(l: Change, r: Change) -> bool
    ensures { result ≡ both_stayed l r }
{
    match l {
        Change::Updated => false,
        Change::Deleted => false,
        Change::Unchanged => match r {
            Change::Updated => false,
            Change::Deleted => false,
            Change::Unchanged => true,
        },
    }
}

// What an inner node's own change is, by the outcomes at its children.
fn settled(l: Outcome, r: Outcome) -> Change
    ensures { result ≡ settled_says l r }
{
    let lchange = l.change;
    let rchange = r.change;
    if both_stayed(lchange, rchange) {
        return Change::Unchanged;
    }
    let lnode = l.node;
    let rnode = r.node;
    let stands = remains_of(lnode, rnode);
    let Remains::Nothing = stands else {
        return Change::Updated;
    };
    Change::Deleted
}

// An inner node that stays, or that ends with both its children.
fn end_or_stay(
    store: &mut [u8],
    guesses: &[u16; 8192],
    writes: bool,
    since: u32,
    place: Place,
    reach: usize,
    change: Change,
    version: u32,
    lchild: Child,
    rchild: Child,
    lefts: u32,
    rights: u32,
) -> Outcome
    requires { Ends store.old lchild.version rchild.version place }
    ensures { EndsOrStays since writes store.old store.new place lchild rchild reach version lefts rights change result }
{
    let Change::Deleted = change else {
        let node = Node::Inner {
            version,
            left: lchild,
            right: rchild,
            lefts,
            rights,
        };
        return Outcome {
            change: Change::Unchanged,
            node,
            reach,
        };
    };
    mark_children(
        store,
        guesses,
        writes,
        place,
        Change::Deleted,
        Change::Deleted,
        lchild.version,
        rchild.version,
        since,
    );
    Outcome {
        change: Change::Deleted,
        node: Node::Nothing,
        reach,
    }
}

// A lone leaf moves up, and its old record retires though it be unchanged; else a new inner node stands above the children.
fn renew(
    store: &mut [u8],
    guesses: &[u16; 8192],
    writes: bool,
    new: u32,
    since: u32,
    place: Place,
    lchild: Child,
    rchild: Child,
    l: Outcome,
    r: Outcome,
) -> Outcome
    requires { Renews new since writes store.old place lchild rchild l r }
    ensures { Renewed new writes store.old store.new place lchild rchild l r result }
{
    let lnode = l.node;
    let rnode = r.node;
    let stands = remains_of(lnode, rnode);
    let lversion = lchild.version;
    let rversion = rchild.version;
    let Remains::Leaf { key, value } = stands else {
        let lchange = l.change;
        let rchange = r.change;
        mark_children(
            store, guesses, writes, place, lchange, rchange, lversion, rversion, since,
        );
        return fork(store, writes, new, place, lchild, rchild, l, r);
    };
    mark_children(
        store,
        guesses,
        writes,
        place,
        Change::Deleted,
        Change::Deleted,
        lversion,
        rversion,
        since,
    );
    Outcome {
        change: Change::Updated,
        node: Node::Leaf {
            version: new,
            key,
            value,
        },
        reach: r.reach,
    }
}

// At the inner node in a slot, above two children: its record says what they were. Where nothing is written, `since` is of no account.
pub fn settle_in(
    store: &mut [u8],
    guesses: &[u16; 8192],
    writes: bool,
    new: u32,
    since: u32,
    place: Place,
    slot: usize,
    l: Outcome,
    r: Outcome,
) -> Outcome
    requires { Settles new since writes store.old place slot l r }
    ensures { Settled new writes store.old store.new place slot l r result }
{
    let node = node_in(store, slot);
    let Node::Inner {
        version,
        left,
        right,
        lefts,
        rights,
    } = node
    else {
        return l;
    };
    let change = settled(l, r);
    let Change::Updated = change else {
        let reach = r.reach;
        return end_or_stay(
            store, guesses, writes, since, place, reach, change, version, left, right, lefts,
            rights,
        );
    };
    renew(store, guesses, writes, new, since, place, left, right, l, r)
}
