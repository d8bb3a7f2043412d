// The parents of a record, document 01, 'Sound': what each slot says of a record below it, and whether all that is right and their kept lives add up.
#![tactic(auto)]

ghost use Rattle.std.specs.Prelude.{◌≡◌, cond};
ghost use Rattle.place.specs.Place.{Proper};
ghost use Rattle.layout.specs.Stores.{slot_in, Has};
ghost use Rattle.check_kin.specs.Kin.{Keeps};
ghost use Rattle.check_link.specs.Link.{Short};
ghost use Rattle.check_parents.specs.Parents.{could_name, SlotSays, ParentsSay};

use check_kin::{Kept, ends_before};
use check_link::{Below, link};
use place::same;
use slots::{Child, Kind, bits_of, read_slot};
use store::{child_version_at, count_at, slot_count, slot_of};
use terms::Form;

// Whether slot j, were it an inner record, would name the record below it: most slots have another bit count.
fn could_name(form: Form, store: &[u8], j: usize, below: Below) -> bool
    requires { Has form store.now j }
    ensures { result ≡ could_name below (slot_in form j store.now) }
{
    let up = below.up;
    if count_at(form, store, j) as usize != up.count {
        return false;
    }
    if child_version_at(form, store, j, below.right) != below.version {
        return false;
    }
    let bits = up.bits;
    same(bits_of(slot_of(form, store, j)), &bits)
}

// The child on a side.
fn on_side(side: bool, left: Child, right: Child) -> Child
    ensures { result ≡ cond side right left }
{
    if side { right } else { left }
}

// What slot j says of a record: nothing, where it is a parent and what it says is wrong, else how many kept
// versions it lives at as a parent.
fn parent_says(form: Form, store: &[u8], j: usize, kept: Kept, below: Below) -> Option<u64>
    requires { Has form store.now j × Keeps form store.now kept × Proper below.up }
    ensures { Short result × SlotSays form store.now j below result }
{
    if !could_name(form, store, j, below) {
        return Some(0);
    }
    let slot = read_slot(slot_of(form, store, j));
    let kind = slot.kind;
    let Kind::Inner { left, right } = kind else {
        return Some(0);
    };
    let version = slot.version;
    let ends = ends_before(kept.latest, slot.retired);
    let named = on_side(below.right, left, right);
    let beside = on_side(!below.right, left, right);
    link(kept, below, version, ends, named, beside.version)
}

// Whether all that its parents say of a record is right, and their kept lives add up to its own.
pub fn parents_right(form: Form, store: &[u8], kept: Kept, below: Below, life: u64) -> bool
    requires { Keeps form store.now kept × Proper below.up }
    ensures { ParentsSay form store.now below life result }
{
    let n = slot_count(form, store);
    let mut sum = 0;
    for j in 0..n {
        let Some(lived) = parent_says(form, store, j, kept, below) else {
            return false;
        };
        sum += lived;
    }
    life <= sum
}
