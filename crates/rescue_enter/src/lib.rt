// The records that one tree of a source has and the next lacks, entered in the target, document 02, request 2026-08: each in its slot, with the
// retired-since given.
#![tactic(auto)]

ghost use Rattle.std.specs.Prelude.{length};
ghost use Rattle.layout.specs.Stores.{store_of};
ghost use Rattle.ordered.specs.Ordered.{Guide};
ghost use Rattle.rescue_enter.specs.Enter.{Target, Held, Puts, Entering, Enters};

use place::Place;
use rescue_look::{kid, lowest};
use store::slot_of;
use store_put::{copy_slot, put_retired_at};
use terms::Form;

// Writes the record that was found in the source to its slot of the target, with another retired-since.
fn put(source: &[u8], found: Option<usize>, since: u32, target: &mut [u8])
    requires { Target source.now target.old × Held source.now found }
    ensures { Puts source.now found since target.old target.new }
{
    let Some(i) = found else {
        return;
    };
    copy_slot(target, i, slot_of(Form::Counted, source, i));
    put_retired_at(Form::Counted, target, i, since);
}

// Enters the nodes of the tree of version a at a place that the tree of version b lacks.
pub fn enter(
    source: &[u8],
    order: &[u16],
    target: &mut [u8],
    since: u32,
    place: Place,
    a: u32,
    b: u32,
)
    requires { Entering source.now target.old place × Guide (store_of source.now).slots order.now (length order.now) }
    ensures { Enters source.now since place a b target.old target.new }
{
    if a == b {
        return;
    }
    let here = lowest(source, order, a, place);
    let there = lowest(source, order, b, place);
    let a_left = kid(source, here, false);
    let a_right = kid(source, here, true);
    let b_left = kid(source, there, false);
    let b_right = kid(source, there, true);
    put(source, here, since, target);
    if 256 <= place.count {
        return;
    }
    let left = place.left();
    enter(source, order, target, since, left, a_left, b_left);
    let right = place.right();
    enter(source, order, target, since, right, a_right, b_right);
}
