// Whether a record of a source of any contents is right by itself, document 02, request 2026-08; a child of which a right record says the same needs no look.
#![tactic(auto)]

ghost use Rattle.std.specs.Prelude.{◌≡◌, length};
ghost use Rattle.meaning.specs.Store.{find};
ghost use Rattle.nodehash.specs.Node.{leaf_hash, inner_hash};
ghost use Rattle.place.specs.Place.{place_of, Proper};
ghost use Rattle.layout.specs.Stores.{store_of, Has};
ghost use Rattle.check_pass.specs.Passes.{Passed};
ghost use Rattle.ordered.specs.Ordered.{Guide};
ghost use Rattle.rescue_rules.specs.Joining.{record_right};
ghost use Rattle.rescue_look.specs.Look.{Inside, tied_at};
ghost use Rattle.rescue_right.specs.Right.{Sought, Alike, Told, Tied, Beside};

use place::{Place, begins, same};
use rescue_look::linked;
use slots::{child_hash, key_of};
use slots_form::is_leaf;
use store::{child_count_at, child_version_at, slot_of};
use terms::Form;

// Whether the inner records in slots i and j say the same of the child on a side, and slot i names another child.
fn alike(source: &[u8], i: usize, j: usize, right: bool) -> bool
    requires { Has Form.Counted source.now i × Has Form.Counted source.now j }
    ensures { Passed result (Alike source.now i j right) }
{
    if child_version_at(Form::Counted, source, i, !right) == 0 {
        return false;
    }
    if child_version_at(Form::Counted, source, i, right)
        != child_version_at(Form::Counted, source, j, right)
    {
        return false;
    }
    if child_count_at(Form::Counted, source, i, right)
        != child_count_at(Form::Counted, source, j, right)
    {
        return false;
    }
    same(
        child_hash(slot_of(Form::Counted, source, i), right),
        child_hash(slot_of(Form::Counted, source, j), right),
    )
}

// Whether the record found beside that in slot i is an inner one, and says the same.
fn told(source: &[u8], i: usize, right: bool, beside: Option<usize>) -> bool
    requires { Has Form.Counted source.now i × Inside source.now beside }
    ensures { Passed result (Told source.now i right beside) }
{
    let Some(j) = beside else {
        return false;
    };
    if is_leaf(slot_of(Form::Counted, source, j)) {
        return false;
    }
    alike(source, i, j, right)
}

// Whether the child on a side of the inner record in slot i is linked, by the record beside it or by a look.
fn tied(
    source: &[u8],
    order: &[u16],
    i: usize,
    right: bool,
    place: Place,
    beside: Option<usize>,
) -> bool
    requires { Has Form.Counted source.now i × Proper place × Guide (store_of source.now).slots order.now (length order.now) × Tied source.now right (place_of place) beside }
    ensures { result ≡ tied_at source.now i right (place_of place) }
{
    if told(source, i, right, beside) {
        return true;
    }
    linked(source, order, i, right, place)
}

// Whether no node was asked for, or it was found and is right: a leaf's key begins with its place, an inner record's children are linked. The record found
// beside it, at the same place, is right.
pub fn record_right(
    source: &[u8],
    order: &[u16],
    version: u32,
    place: Place,
    found: Option<usize>,
    beside: Option<usize>,
) -> bool
    requires { Sought source.now version place found × Guide (store_of source.now).slots order.now (length order.now) × Beside source.now place beside }
    ensures { result ≡ record_right leaf_hash inner_hash (store_of source.now).slots version (place_of place) (find version (place_of place) (store_of source.now).slots) }
{
    let Some(i) = found else {
        return version == 0;
    };
    let slot = slot_of(Form::Counted, source, i);
    if is_leaf(slot) {
        return begins(key_of(slot), place);
    }
    let left = place.left();
    if !tied(source, order, i, false, left, beside) {
        return false;
    }
    let right = place.right();
    tied(source, order, i, true, right, beside)
}
