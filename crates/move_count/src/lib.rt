// The leaves below the children of each inner record of a plain store, document 02, request 2026-10: the longest places first, so that what a
// record's children have is there before it is asked for. Children are guessed, and looked at before they are believed.
#![tactic(auto)]

ghost use Rattle.std.specs.Prelude.{◌≡◌, true, ◌+◌, ◌≤◌, ◌<◌, length};
ghost use Rattle.place.specs.Place.{place_of, Proper};
ghost use Rattle.layout.specs.Slots.{is_inner, count_in};
ghost use Rattle.layout.specs.Stores.{slot_in, Has};
ghost use Rattle.lookup.specs.Lookup.{FoundIn};
ghost use Rattle.check_pass.specs.Passes.{Room};
ghost use Rattle.move_count.specs.Count.{Countable, plain_store, NodeIn, leaves_at, WeighsIn, CountedFrom, SlotCounted, LevelAt, Leveled, LevelCounted};

use agree::agrees;
use check_guess::guessed;
use check_sort::sort;
use layout::sizes::LEAF_KIND;
use lookup::find;
use place::{Place, child_place, place_at};
use slots::bits_of;
use store::{child_version_at, count_at, kind_at, slot_count, slot_of, wide};
use terms::Form;

// The level of a slot that holds no inner record.
const NO_LEVEL: u16 = 256;

// Whether slot c holds the node of a version at a place.
fn is_node(store: &[u8], c: usize, version: u32, place: Place) -> bool
    requires { Countable store.now × (1 ≤ version) × Proper place }
    ensures { NodeIn store.now c version (place_of place) result }
{
    let n = slot_count(Form::Plain, store);
    if n <= c {
        return false;
    }
    agrees(Form::Plain, store, c, version, place)
}

// The slot of the node of a version at a place: a guess that is right, or what a search finds; version 0 is no node.
fn child_slot(store: &[u8], version: u32, place: Place, guess: usize) -> Option<usize>
    requires { Countable store.now × Proper place }
    ensures { FoundIn (plain_store store.now).slots version (place_of place) result }
{
    if version == 0 {
        return None;
    }
    if is_node(store, guess, version, place) {
        return Some(guess);
    }
    find(Form::Plain, store, version, place)
}

// The leaves at the record in slot c, by the counts that were made.
fn weight_of(store: &[u8], counts: &[u16; 32768], c: usize) -> usize
    requires { Has Form.Plain store.now c }
    ensures { WeighsIn store.now counts.now c result }
{
    if kind_at(Form::Plain, store, c) == LEAF_KIND {
        return 1;
    }
    wide(counts[2 * c]) + wide(counts[2 * c + 1])
}

// The leaves at the node of a version at a place, 0 where there is none.
fn leaves_at(store: &[u8], counts: &[u16; 32768], version: u32, place: Place, guess: usize) -> usize
    requires { Countable store.now × Proper place × CountedFrom store.now counts.now place.count }
    ensures { (result ≡ leaves_at store.now version (place_of place)) × (result ≤ 16384) }
{
    let found = child_slot(store, version, place, guess);
    match found {
        Some(c) => weight_of(store, counts, c),
        None => 0,
    }
}

// Writes the counts of the inner record in slot i, with a guess for each of its children.
fn count_slot(store: &[u8], i: usize, a: usize, b: usize, counts: &mut [u16; 32768])
    requires { Countable store.now × Has Form.Plain store.now i × (is_inner (slot_in Form.Plain i store.now) ≡ true) × CountedFrom store.now counts.old (count_in (slot_in Form.Plain i store.now) + 1) }
    ensures { SlotCounted store.now i counts.old counts.new }
{
    let up = place_at(
        bits_of(slot_of(Form::Plain, store, i)),
        count_at(Form::Plain, store, i) as usize,
    );
    let left = child_version_at(Form::Plain, store, i, false);
    let right = child_version_at(Form::Plain, store, i, true);
    let lefts = leaves_at(store, counts, left, child_place(up, false), a);
    let rights = leaves_at(store, counts, right, child_place(up, true), b);
    counts[2 * i] = lefts as u16;
    counts[2 * i + 1] = rights as u16;
}

// The same where slot i has a level.
fn count_at_level(
    store: &[u8],
    i: usize,
    mine: u16,
    level: u16,
    guess: &[u16; 32768],
    counts: &mut [u16; 32768],
)
    requires { Countable store.now × Has Form.Plain store.now i × LevelAt store.now i mine × (level < 256) × CountedFrom store.now counts.old (level + 1) }
    ensures { LevelCounted store.now level i counts.old counts.new }
{
    if mine != level {
        return;
    }
    count_slot(store, i, wide(guess[2 * i]), wide(guess[2 * i + 1]), counts);
}

// The counts of all inner records of a level.
fn count_level(
    store: &[u8],
    n: usize,
    level: u16,
    levels: &[u16; 16384],
    guess: &[u16; 32768],
    counts: &mut [u16; 32768],
)
    requires { Countable store.now × Room Form.Plain store.now n × Leveled store.now levels.now n × (level < 256) × CountedFrom store.now counts.old (level + 1) }
    ensures { CountedFrom store.now counts.new level }
{
    for i in 0..n {
        count_at_level(store, i, levels[i], level, guess, counts);
    }
}

// The level of slot i.
fn level_of(store: &[u8], i: usize) -> u16
    requires { Countable store.now × Has Form.Plain store.now i }
    ensures { LevelAt store.now i result }
{
    if kind_at(Form::Plain, store, i) <= LEAF_KIND {
        return NO_LEVEL;
    }
    count_at(Form::Plain, store, i)
}

// The level of each slot.
fn levels_of(store: &[u8], n: usize, levels: &mut [u16; 16384])
    requires { Countable store.now × Room Form.Plain store.now n × (length levels.old ≡ 16384) }
    ensures { Leveled store.now levels.new n }
{
    for i in 0..n {
        levels[i] = level_of(store, i);
    }
}

// All levels, the longest places first.
fn count_levels(store: &[u8], n: usize, guess: &[u16; 32768], counts: &mut [u16; 32768])
    requires { Countable store.now × Room Form.Plain store.now n × (length counts.old ≡ 32768) }
    ensures { CountedFrom store.now counts.new 0 }
{
    let mut levels = [0u16; 16384];
    levels_of(store, n, &mut levels);
    for level in (0..NO_LEVEL).rev() {
        count_level(store, n, level, &levels, guess, counts);
    }
}

// A guess at the slots of the children that each slot names.
fn guess_children(store: &[u8], n: usize, guess: &mut [u16; 32768])
    requires { Room Form.Plain store.now n × (n ≤ 16384) }
{
    let mut table = [0u16; 16384];
    let mut spare = [0u16; 16384];
    let many = sort(Form::Plain, store, n, &mut table, &mut spare);
    guessed(Form::Plain, store, n, &table[..many], guess);
}

// The counts of every inner record of a sound store, two for each slot.
pub fn count_leaves(store: &[u8], counts: &mut [u16; 32768])
    requires { Countable store.now × (length counts.old ≡ 32768) }
    ensures { CountedFrom store.now counts.new 0 }
{
    let n = slot_count(Form::Plain, store);
    let mut guess = [0u16; 32768];
    guess_children(store, n, &mut guess);
    count_levels(store, n, &guess, counts);
}
