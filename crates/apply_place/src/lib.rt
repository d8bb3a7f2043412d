// Placing in lent memory, document 01: the record of a node goes to the lowest free slot. Where `writes` is false nothing is written, and the
// records are counted as if every slot were free.
#![tactic(auto)]

ghost use Rattle.std.specs.Prelude.{◌≡◌, ◌++◌, ◌+◌, ◌≤◌, length};
ghost use Rattle.terms.specs.Records.{used, leaf_body, no_tally};
ghost use Rattle.meaning.specs.Store.{placed};
ghost use Rattle.hash.specs.Hash.{hash_bytes};
ghost use Rattle.place.specs.Place.{place_of, Proper};
ghost use Rattle.layout.specs.Slots.{record_of};
ghost use Rattle.layout.specs.Stores.{store_of, SlotWithin, with_slot};
ghost use Rattle.apply_place.specs.Placing.{Stored, Changed, NoneFree, FreeIn, record_says};
ghost use Rattle.apply_place.specs.Reach.{over_most, capped, node_size, Puts, Places, Placed};

use fields::all_zero;
use hash::{Hash, put_hash};
use place::Place;
use slots::Child;
use store::{slot_count, slot_of};
use store_put::{put_inner_at, put_leaf_at};
use terms::Form;

// The node that stands at a place: a leaf with its grant, an inner node with its children and how many leaves are below each.
#[derive(Clone, Copy)]
pub enum Node {
    Nothing,
    Leaf {
        version: u32,
        key: Hash,
        value: Hash,
    },
    Inner {
        version: u32,
        left: Child,
        right: Child,
        lefts: u32,
        rights: u32,
    },
}

// One more than the most slots of a store.
const BEYOND: usize = 16385;

// Two counts together; those above the most slots of a store are not told apart.
fn more(a: usize, b: usize) -> usize
    requires { (a ≤ over_most) × (b ≤ over_most) }
    ensures { result ≡ capped (a + b) }
{
    let sum = a + b;
    if BEYOND < sum { BEYOND } else { sum }
}

// How many records a node has: one, if there is a node.
fn size(node: Node) -> usize
    ensures { result ≡ node_size node }
{
    match node {
        Node::Nothing => 0,
        Node::Leaf { .. } | Node::Inner { .. } => 1,
    }
}

// The lowest free slot, where none below a slot is free.
fn find_free(store: &[u8], from: usize) -> Option<usize>
    requires { Stored store.now × NoneFree (store_of store.now).slots from }
    ensures { FreeIn (store_of store.now).slots result }
{
    let n = slot_count(Form::Counted, store);
    for i in from..n {
        if all_zero(slot_of(Form::Counted, store, i)) {
            return Some(i);
        }
    }
    None
}

// The 64 bytes of a grant: key and value.
fn put_grant(grant: &mut [u8], key: Hash, value: Hash)
    requires { length grant.old ≡ 64 }
    ensures { grant.new ≡ hash_bytes key ++ hash_bytes value }
{
    put_hash(grant, key);
    put_hash(&mut grant[32..64], value);
}

// Writes a leaf that isn't retired over slot i.
fn put_leaf_new(store: &mut [u8], i: usize, place: Place, version: u32, key: Hash, value: Hash)
    requires { SlotWithin Form.Counted i store.old × Proper place }
    ensures { store.new ≡ with_slot Form.Counted i (used (record_of (place_of place) version 0 (leaf_body (hash_bytes key) (hash_bytes value)) no_tally)) store.old }
{
    let mut grant = [0u8; 64];
    put_grant(&mut grant, key, value);
    put_leaf_at(Form::Counted, store, i, place, version, 0, &grant);
}

// Writes the record of the node at a place over the lowest free slot, i.
fn put_node(store: &mut [u8], i: usize, place: Place, node: Node)
    requires { Puts store.old i place (record_says (place_of place) node) }
    ensures { Changed (placed (record_says (place_of place) node)) store.old store.new }
{
    match node {
        Node::Nothing => {}
        Node::Leaf {
            version,
            key,
            value,
        } => put_leaf_new(store, i, place, version, key, value),
        Node::Inner {
            version,
            left,
            right,
            lefts,
            rights,
        } => put_inner_at(
            Form::Counted,
            store,
            i,
            place,
            version,
            0,
            left,
            right,
            lefts,
            rights,
        ),
    }
}

// Places the record of the node at a place, and answers how far the new records reach; with no free slot there is nothing to place it in.
pub fn place_node(store: &mut [u8], writes: bool, from: usize, place: Place, node: Node) -> usize
    requires { Places writes store.old from place (record_says (place_of place) node) }
    ensures { Placed writes from (record_says (place_of place) node) store.old store.new result }
{
    let n = size(node);
    if !writes {
        return more(from, n);
    }
    let Some(i) = find_free(store, from) else {
        return from;
    };
    put_node(store, i, place, node);
    i + n
}
