// Where the nodes of the latest tree are likely to stand: guesses without proof. Each is looked at before it is believed, and where none is
// right the slots are searched, so a wrong guess costs time and never an answer.
#![tactic(auto)]

ghost use Rattle.std.specs.Prelude.{◌≡◌, ◌+◌, ◌≤◌, length};
ghost use Rattle.place.specs.Place.{place_of};
ghost use Rattle.layout.specs.Stores.{store_of};
ghost use Rattle.lookup.specs.Lookup.{FoundIn};
ghost use Rattle.apply_place.specs.Placing.{Stored};
ghost use Rattle.apply_guess.specs.Guess.{Once};

use guess::{holds, spread};
use lookup::find;
use place::Place;
use slots::bits_of;
use store::{count_at, retired_at, slot_count, slot_of, version_at, wide};
use terms::Form;

// Four guesses lie together.
const TOGETHER: usize = 4;

// Where the guesses for a node begin.
fn start_of(version: u32, count: usize, bits: &[u8]) -> usize
    requires { length bits.now ≡ 32 }
    ensures { result + 4 ≤ 8192 }
{
    (spread(version, count, bits) % 2048 * 4) as usize
}

// Keeps a slot among the four guesses from b on, where one is left; 0 is none.
fn keep(guesses: &mut [u16; 8192], b: usize, slot: u16)
    requires { b + 4 ≤ 8192 }
{
    for guess in &mut guesses[b..b + TOGETHER] {
        if *guess == 0 {
            *guess = slot;
            return;
        }
    }
}

// Guesses the slots of all nodes that aren't retired.
pub fn guess_all(store: &[u8], guesses: &mut [u16; 8192])
    requires { Stored store.now }
{
    let n = slot_count(Form::Counted, store);
    for i in 0..n {
        let version = version_at(Form::Counted, store, i);
        if version != 0 && retired_at(Form::Counted, store, i) == 0 {
            let count = count_at(Form::Counted, store, i) as usize;
            keep(
                guesses,
                start_of(version, count, bits_of(slot_of(Form::Counted, store, i))),
                i as u16,
            );
        }
    }
}

// The slot of the node (version, place), which is there once at most: a guess that is right, or what a search finds; version 0 is no node.
pub fn find_near(store: &[u8], guesses: &[u16; 8192], version: u32, place: Place) -> Option<usize>
    requires { Once store.now version place }
    ensures { FoundIn (store_of store.now).slots version (place_of place) result }
{
    if version == 0 {
        return None;
    }
    let bits = place.bits;
    let b = start_of(version, place.count, &bits);
    for guess in &guesses[b..b + TOGETHER] {
        let i = wide(*guess);
        if holds(store, i, version, place) {
            return Some(i);
        }
    }
    find(Form::Counted, store, version, place)
}
