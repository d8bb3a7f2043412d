// Parents and their children, slot by slot: whether each child stands in the slot that was guessed, and all that is said of it is right.
#![tactic(auto)]

ghost use Rattle.std.specs.Prelude.{◌≡◌, true};
ghost use Rattle.layout.specs.Slots.{is_inner};
ghost use Rattle.layout.specs.Stores.{slot_in, Has};
ghost use Rattle.check_pass.specs.Passes.{Passed};
ghost use Rattle.check_hash.specs.Known.{Known};
ghost use Rattle.check_child.specs.Child.{Ready};
ghost use Rattle.check_tie.specs.Side.{ParentIn, SlotTied, TiedTo};

use check_child::{Link, Parent, tie_link};
use check_kin::{Kept, ends_before, kept_life, later};
use hash::hash_at;
use layout::sizes::LEAF_KIND;
use place::place_at;
use slots::{bits_of, child_hash};
use store::{
    child_count_at, child_version_at, count_at, kind_at, retired_at, slot_count, slot_of,
    version_at, wide,
};
use terms::Form;

// The parent that the inner record in slot j is.
fn parent_in(form: Form, store: &[u8], kept: Kept, j: usize) -> Parent
    requires { Has form store.now j × (is_inner (slot_in form j store.now) ≡ true) }
    ensures { ParentIn kept (slot_in form j store.now) result }
{
    let up = place_at(
        bits_of(slot_of(form, store, j)),
        count_at(form, store, j) as usize,
    );
    let version = version_at(form, store, j);
    let ends = ends_before(kept.latest, retired_at(form, store, j));
    let first = later(kept.oldest, version);
    let life = kept_life(kept.oldest, version, ends);
    Parent {
        up,
        first,
        ends,
        life,
    }
}

// Whether both children of slot j are missing or tied, with a guess for each.
fn tie_slot(
    form: Form,
    store: &[u8],
    kept: Kept,
    j: usize,
    a: usize,
    b: usize,
    known: &mut [u16; 16384],
    sums: &mut [u32; 16384],
) -> bool
    requires { Has form store.now j × Ready form store.now kept × Known form store.now known.old }
    ensures known { Known form store.now known.new }
    ensures passed { Passed result (SlotTied form store.now j sums.old sums.new) }
{
    if kind_at(form, store, j) <= LEAF_KIND {
        return true;
    }
    let s = slot_of(form, store, j);
    let parent = parent_in(form, store, kept, j);
    let left = child_version_at(form, store, j, false);
    let right = child_version_at(form, store, j, true);
    let lefts = child_count_at(form, store, j, false);
    let rights = child_count_at(form, store, j, true);
    let number = 2 * (j as u16) + 1;
    let to_left = Link {
        right: false,
        number,
        version: left,
        hash: hash_at(child_hash(s, false), 0),
        other: right,
        count: lefts,
    };
    if !tie_link(form, store, kept, a, parent, to_left, known, sums) {
        return false;
    }
    let to_right = Link {
        right: true,
        number: number + 1,
        version: right,
        hash: hash_at(child_hash(s, true), 0),
        other: left,
        count: rights,
    };
    tie_link(form, store, kept, b, parent, to_right, known, sums)
}

// How many slots, from the first on, are tied to the children that they name, with a guess for each child; at the end the sums are right.
pub fn tie_all(
    form: Form,
    store: &[u8],
    kept: Kept,
    guess: &[u16; 32768],
    known: &mut [u16; 16384],
    sums: &mut [u32; 16384],
) -> usize
    requires { Ready form store.now kept × Known form store.now known.old }
    ensures { TiedTo form store.now result sums.old sums.new }
{
    let n = slot_count(form, store);
    for j in 0..n {
        let a = wide(guess[2 * j]);
        let b = wide(guess[2 * j + 1]);
        if !tie_slot(form, store, kept, j, a, b, known, sums) {
            return j;
        }
    }
    n
}
