// Two trees of a source compared, document 02, request 2026-08: whether a version's tree joins the next one's.
#![tactic(auto)]

ghost use Rattle.std.specs.Prelude.{◌≡◌, true, ◌||◌, length, eqb};
ghost use Rattle.place.specs.Place.{Proper};
ghost use Rattle.layout.specs.Headers.{size_right};
ghost use Rattle.layout.specs.Stores.{store_of};
ghost use Rattle.ordered.specs.Ordered.{Guide};
ghost use Rattle.rescue_rules.specs.Joining.{newer};
ghost use Rattle.rescue_join.specs.Join.{JoinSays, RightHere};

use check_kin::later;
use place::Place;
use rescue_look::{kid, lowest};
use rescue_right::record_right;
use terms::Form;

// Whether a version is 0 or the next one.
fn of_next(b: u32, next: u32) -> bool
    ensures { result ≡ (eqb b 0 || eqb b next) }
{
    if b == 0 {
        return true;
    }
    b == next
}

// The version of a child where it is newer than its parent, else 0.
fn newer(a: u32, child: u32) -> u32
    ensures { result ≡ newer a child }
{
    if a < child {
        return child;
    }
    0
}

// Joins the node of version a at a place, and all below it, to the node of version b in the tree of the version `next`, which is right.
// Where they fit it answers the floor: the greatest version of a child newer than its parent, among the records of
// the first tree that the second lacks; None where they don't fit.
pub fn join(source: &[u8], order: &[u16], next: u32, place: Place, a: u32, b: u32) -> Option<u32>
    requires { (size_right Form.Counted (length source.now) ≡ true) × Proper place × Guide (store_of source.now).slots order.now (length order.now) × RightHere source.now place b }
    ensures { JoinSays source.now next place a b result }
{
    if a == b {
        return Some(0);
    }
    if !of_next(b, next) {
        return None;
    }
    let here = lowest(source, order, a, place);
    let there = lowest(source, order, b, place);
    if !record_right(source, order, a, place, here, there) {
        return None;
    }
    if 256 <= place.count {
        return Some(0);
    }
    let a_left = kid(source, here, false);
    let a_right = kid(source, here, true);
    let b_left = kid(source, there, false);
    let b_right = kid(source, there, true);
    let left = place.left();
    let l = join(source, order, next, left, a_left, b_left)?;
    let right = place.right();
    let r = join(source, order, next, right, a_right, b_right)?;
    let own = later(newer(a, a_left), newer(a, a_right));
    Some(later(own, later(l, r)))
}
