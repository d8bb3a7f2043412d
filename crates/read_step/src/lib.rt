// The steps of a walk down a store in lent memory, document 01, 'Reading and proving': what is seen at the root of a version, what at a child.
// Only the records on the way are looked at.
#![tactic(auto)]

ghost use Rattle.std.specs.Prelude.{◌≡◌, true, [], ◌<◌, length};
ghost use Rattle.meaning.specs.Reading.{refusal_of, seen};
ghost use Rattle.refusal_numbers.specs.Refusals.{code};
ghost use Rattle.indexed.specs.Index.{by_table};
ghost use Rattle.place.specs.Place.{place_of};
ghost use Rattle.layout.specs.Sizes.{room_of};
ghost use Rattle.layout.specs.Headers.{size_right};
ghost use Rattle.layout.specs.Stores.{store_of};
ghost use Rattle.read_step.specs.Walk.{trouble_says, kid_in, seen_below, Sees, SeesIn, Slotted, SlotHolds};

use index_sights::{look_by, look_root_by};
use place::{Place, begins};
use refusal_numbers::{ReadRefusal, Refusal};
use sights::Sight;
use slots::key_of;
use slots_form::is_leaf;
use store::{child_version_at, slot_of};
use terms::Form;

// What stops a read.
#[derive(Clone, Copy)]
pub enum Trouble {
    // A present child that no slot matches.
    Lost,
    // No slot in form matches, but the fields of this one agree.
    Spoilt(u16),
    // A found leaf whose key doesn't begin with its place.
    Stray,
}

// Why a read that is stopped refuses.
pub fn refusal(trouble: Trouble) -> ReadRefusal
    ensures { code result ≡ refusal_of (trouble_says trouble) }
{
    match trouble {
        Trouble::Lost => ReadRefusal::Plain(Refusal::Lost),
        Trouble::Spoilt(slot) => ReadRefusal::Spoilt(slot),
        Trouble::Stray => ReadRefusal::Plain(Refusal::NotSound),
    }
}

// What a read sees at a place; a leaf and an inner node by their slot.
#[derive(Clone, Copy)]
pub enum Seen {
    // There is no child.
    Gap,
    Stopped(Trouble),
    Leaf(usize),
    Inner(usize),
}

// What is seen at a place whose record was found in slot i, whatever table finds what stands below it.
pub fn seen_in(store: &[u8], i: usize, place: Place) -> Seen
    requires { SlotHolds store.now i place }
    ensures { SeesIn store.now i (place_of place) result }
{
    let slot = slot_of(Form::Counted, store, i);
    if !is_leaf(slot) {
        return Seen::Inner(i);
    }
    if !begins(key_of(slot), place) {
        return Seen::Stopped(Trouble::Stray);
    }
    Seen::Leaf(i)
}

// What is seen by a table at the root of a version. One without entries is the scan.
pub fn root(store: &[u8], index: &[u32], version: u32) -> Seen
    requires { size_right Form.Counted (length store.now) ≡ true }
    ensures { Sees store.now index.now [] (seen (by_table index.now (store_of store.now)) version) result }
{
    let top = Place::top();
    let sight = look_root_by(store, index, version);
    match sight {
        Sight::Matches(i) => seen_in(store, i, top),
        Sight::Nothing => Seen::Gap,
        Sight::Spoilt(i) => {
            let slot = i as u16;
            Seen::Stopped(Trouble::Spoilt(slot))
        }
    }
}

// The version of the child on a side of the inner node in slot i.
pub fn child_version(store: &[u8], i: usize, right: bool) -> u32
    requires { (size_right Form.Counted (length store.now) ≡ true) × (i < room_of Form.Counted (length store.now)) }
    ensures { result ≡ (kid_in i store.now right).version }
{
    child_version_at(Form::Counted, store, i, right)
}

// What is seen on a side of the inner node in slot i; the place is the child's, one bit longer than the node's.
pub fn child(store: &[u8], index: &[u32], i: usize, right: bool, place: Place) -> Seen
    requires { Slotted store.now i place }
    ensures { Sees store.now index.now (place_of place) (seen_below store.now index.now (place_of place) (kid_in i store.now right)) result }
{
    let version = child_version(store, i, right);
    if version == 0 {
        return Seen::Gap;
    }
    let sight = look_by(store, index, version, place);
    match sight {
        Sight::Matches(j) => seen_in(store, j, place),
        Sight::Nothing => Seen::Stopped(Trouble::Lost),
        Sight::Spoilt(j) => {
            let slot = j as u16;
            Seen::Stopped(Trouble::Spoilt(slot))
        }
    }
}
