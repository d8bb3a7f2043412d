// What ends at the children of an inner node, document 01, 'Retirement', and what is left above them.
#![tactic(auto)]

ghost use Rattle.std.specs.Prelude.{◌≡◌, [], ◌∷◌, ◌++◌};
ghost use Rattle.terms.specs.Bits.{longer, left, right};
ghost use Rattle.place.specs.Place.{place_of};
ghost use Rattle.steps.specs.Writing.{mark};
ghost use Rattle.apply_place.specs.Placing.{Changed, when_writes, node_at};
ghost use Rattle.apply_guess.specs.Guess.{Once};
ghost use Rattle.apply_end.specs.Ending.{ends_says, remains_of, Ends};

use apply_guess::find_near;
use apply_outcome::Change;
use apply_place::Node;
use hash::Hash;
use place::Place;
use store_put::put_retired_at;
use terms::Form;

// What remains above two children: nothing, a lone leaf, or more.
#[derive(Clone, Copy)]
pub enum Remains {
    Nothing,
    Leaf { key: Hash, value: Hash },
    More,
}

pub fn remains_of(l: Node, r: Node) -> Remains
    ensures { result ≡ remains_of l r }
{
    match l {
        Node::Nothing => match r {
            Node::Nothing => Remains::Nothing,
            Node::Leaf {
                version: _,
                key,
                value,
            } => Remains::Leaf { key, value },
            Node::Inner {
                version: _,
                left: _,
                right: _,
                lefts: _,
                rights: _,
            } => Remains::More,
        },
        Node::Leaf {
            version: _,
            key,
            value,
        } => match r {
            Node::Nothing => Remains::Leaf { key, value },
            Node::Leaf {
                version: _,
                key: _,
                value: _,
            } => Remains::More,
            Node::Inner {
                version: _,
                left: _,
                right: _,
                lefts: _,
                rights: _,
            } => Remains::More,
        },
        Node::Inner {
            version: _,
            left: _,
            right: _,
            lefts: _,
            rights: _,
        } => Remains::More,
    }
}

// Marks the node (version, place) retired since a version.
fn mark_node(
    store: &mut [u8],
    guesses: &[u16; 8192],
    writes: bool,
    version: u32,
    place: Place,
    since: u32,
)
    requires { Once store.old version place }
    ensures { Changed (when_writes writes (mark since (node_at version (place_of place) ∷ []))) store.old store.new }
{
    if !writes {
        return;
    }
    let Some(i) = find_near(store, guesses, version, place) else {
        return;
    };
    put_retired_at(Form::Counted, store, i, since);
}

// Marks the child (version, place) unless it is unchanged; version 0 is no child.
pub fn mark_changed(
    store: &mut [u8],
    guesses: &[u16; 8192],
    writes: bool,
    change: Change,
    version: u32,
    place: Place,
    since: u32,
)
    requires { Once store.old version place }
    ensures { Changed (when_writes writes (mark since (ends_says change version (place_of place)))) store.old store.new }
{
    if version == 0 {
        return;
    }
    let Change::Unchanged = change else {
        mark_node(store, guesses, writes, version, place, since);
        return;
    };
}

// Marks both children of the node at a place, the left one first.
pub fn mark_children(
    store: &mut [u8],
    guesses: &[u16; 8192],
    writes: bool,
    place: Place,
    lchange: Change,
    rchange: Change,
    lversion: u32,
    rversion: u32,
    since: u32,
)
    requires { Ends store.old lversion rversion place }
    ensures { Changed (when_writes writes (mark since (ends_says lchange lversion (longer left (place_of place)) ++ ends_says rchange rversion (longer right (place_of place))))) store.old store.new }
{
    let lplace = place.left();
    let rplace = place.right();
    mark_changed(store, guesses, writes, lchange, lversion, lplace, since);
    mark_changed(store, guesses, writes, rchange, rversion, rplace, since);
}
