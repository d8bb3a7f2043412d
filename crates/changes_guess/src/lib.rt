// The slot of a child by the guess that check left of it. A guess is looked at before it is believed, and where it is wrong the slots are searched, so a
// wrong guess costs time and never an answer.
#![tactic(auto)]

ghost use Rattle.std.specs.Prelude.{◌≡◌, true, length};
ghost use Rattle.place.specs.Place.{place_of, Proper};
ghost use Rattle.layout.specs.Headers.{size_right};
ghost use Rattle.layout.specs.Stores.{store_of};
ghost use Rattle.lookup.specs.Lookup.{FoundIn};
ghost use Rattle.changes_guess.specs.Apart.{Apart};

use guess::holds;
use lookup::find;
use place::Place;
use store::wide;
use terms::Form;

// The guess for a side of slot i.
pub fn guess_of(guess: &[u16; 32768], i: usize, right: bool) -> usize {
    if 16384 <= i {
        return 0;
    }
    if right {
        return wide(guess[2 * i + 1]);
    }
    wide(guess[2 * i])
}

// The slot of the node (version, place), which is there once at most: slot i, if it is guessed right, or what a search finds.
pub fn find_near(store: &[u8], i: usize, version: u32, place: Place) -> Option<usize>
    requires { ((size_right Form.Counted (length store.now) ≡ true) × Apart (store_of store.now)) × Proper place }
    ensures { FoundIn (store_of store.now).slots version (place_of place) result }
{
    if holds(store, i, version, place) {
        return Some(i);
    }
    find(Form::Counted, store, version, place)
}
