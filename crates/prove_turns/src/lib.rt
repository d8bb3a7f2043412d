// Where a walk and a search turn, document 01, 'Reading and proving': the deepest fork towards a side, where a descent goes on, whether a key is on a side.
#![tactic(auto)]

ghost use Rattle.std.specs.Prelude.{◌≡◌, true, cond, not, ◌<◌, length, eqb};
ghost use Rattle.layout.specs.Sizes.{room_of};
ghost use Rattle.layout.specs.Headers.{size_right};
ghost use Rattle.read_step.specs.Walk.{kid_in};
ghost use Rattle.meaning.specs.Proving.{beyond};
ghost use Rattle.prove_turns.specs.Forks.{fork_after};

use place::{Place, before};
use read_step::child_version;
use terms::Form;

// A fork towards a side is an inner node on the trail where the walk turned away from the side, and a child is there. The place of the deepest, where the
// walk takes a turn at the inner node in slot i: this node's, if it is a fork, else the deepest so far.
pub fn deepest(
    store: &[u8],
    fork: Option<Place>,
    place: Place,
    i: usize,
    turn: bool,
    side: bool,
) -> Option<Place>
    requires { (size_right Form.Counted (length store.now) ≡ true) × (i < room_of Form.Counted (length store.now)) }
    ensures { result ≡ fork_after store.now i place turn side fork }
{
    if turn == side {
        return fork;
    }
    if child_version(store, i, side) == 0 {
        return fork;
    }
    Some(place)
}

// Where a descent goes on from the inner node in slot i: to a side where there is a child on that side, else to the other.
pub fn towards(store: &[u8], i: usize, to: bool) -> bool
    requires { (size_right Form.Counted (length store.now) ≡ true) × (i < room_of Form.Counted (length store.now)) }
    ensures { result ≡ cond (eqb (kid_in i store.now to).version 0) (not to) to }
{
    if child_version(store, i, to) == 0 {
        return !to;
    }
    to
}

// Whether a key is on a side of another: smaller on the left, greater on the right.
pub fn beyond(other: &[u8], key: &[u8], side: bool) -> bool
    ensures { result ≡ beyond side other.now key.now }
{
    if side {
        return before(key, other);
    }
    before(other, key)
}
