// The descent to a position by the counts, 2026-09: from a record in a slot down; no leaf but the one asked for is looked at.
#![tactic(auto)]

ghost use Rattle.std.specs.Prelude.{◌≡◌, []};
ghost use Rattle.place.specs.Place.{place_of};
ghost use Rattle.layout.specs.Slots.{is_leaf};
ghost use Rattle.layout.specs.Stores.{slot_in, Has};
ghost use Rattle.read_step.specs.Walk.{kid_in, Slotted};
ghost use Rattle.read_descent.specs.Parts.{position_says, leaf_answer, body_at, Steps};

use hash::{Hash, hash_at};
use index_sights::look_by;
use place::{Place, begins, child_place};
use read_step::{Trouble, child_version, refusal};
use read_turn::turn_at;
use refusal_numbers::{ReadRefusal, Refusal};
use sights::Sight;
use slots::{key_of, value_of};
use slots_form::is_leaf;
use store::slot_of;
use terms::Form;

// A grant: its key and its value.
#[derive(Clone, Copy)]
pub struct Grant {
    pub key: Hash,
    pub value: Hash,
}

// Whether slot i holds a leaf.
fn leaf_here(store: &[u8], i: usize) -> bool
    requires { Has Form.Counted store.now i }
    ensures { result ≡ is_leaf (slot_in Form.Counted i store.now) }
{
    is_leaf(slot_of(Form::Counted, store, i))
}

// What the leaf in slot i at a place says of a position.
fn leaf_at(store: &[u8], i: usize, place: Place, n: u64) -> Result<Grant, ReadRefusal>
    requires { Slotted store.now i place }
    ensures { position_says result ≡ leaf_answer (place_of place) (slot_in Form.Counted i store.now) n }
{
    let slot = slot_of(Form::Counted, store, i);
    if !begins(key_of(slot), place) {
        return Err(ReadRefusal::Plain(Refusal::NotSound));
    }
    if n != 0 {
        return Err(ReadRefusal::Plain(Refusal::NotSound));
    }
    let key = hash_at(key_of(slot), 0);
    let value = hash_at(value_of(slot), 0);
    Ok(Grant { key, value })
}

// The slot of the child on a side of the inner record in slot i, at its place.
fn kid(
    store: &[u8],
    index: &[u32],
    i: usize,
    right: bool,
    place: Place,
) -> Result<usize, ReadRefusal>
    requires { Slotted store.now i place }
    ensures { Steps store.now index.now place (kid_in i store.now right) result }
{
    let version = child_version(store, i, right);
    if version == 0 {
        return Err(ReadRefusal::Plain(Refusal::NotSound));
    }
    let sight = look_by(store, index, version, place);
    match sight {
        Sight::Matches(j) => Ok(j),
        Sight::Nothing => Err(refusal(Trouble::Lost)),
        Sight::Spoilt(j) => {
            let slot = j as u16;
            Err(refusal(Trouble::Spoilt(slot)))
        }
    }
}

// Goes down from the root record in a slot.
pub fn descend(
    store: &[u8],
    index: &[u32],
    first: usize,
    position: u64,
) -> Result<Grant, ReadRefusal>
    requires { Has Form.Counted store.now first }
    ensures { position_says result ≡ body_at store.now index.now [] first position }
{
    let mut place = Place::top();
    let mut at = first;
    let mut n = position;
    // Down the tree, which is no count.
    loop {
        if leaf_here(store, at) {
            return leaf_at(store, at, place, n);
        }
        let turn = turn_at(store, at, n);
        place = child_place(place, turn.right);
        at = kid(store, index, at, turn.right, place)?;
        n = turn.rest;
    }
}
