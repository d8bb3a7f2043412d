// A guess at the slot of a node: a number to keep guesses by, and the look at a slot that a guess names. Guesses are made without proof and looked
// at before they are believed, so a wrong one costs time and never an answer.
#![tactic(auto)]

ghost use Rattle.std.specs.Prelude.{◌≡◌, true, ◌<◌, length};
ghost use Rattle.place.specs.Place.{place_of, Proper};
ghost use Rattle.layout.specs.Headers.{size_right};
ghost use Rattle.guess.specs.Guess.{NodeAt};

use agree::holds_node;
use place::Place;
use store::slot_count;
use terms::Form;

// A number for a node, spread out: by the first three bytes of its place, the last two, the bit count and the version.
pub fn spread(version: u32, count: usize, bits: &[u8]) -> u64
    requires { length bits.now ≡ 32 }
    ensures { result < 4294967296 }
{
    let many = count % 512;
    let last = (many + 255) % 256 / 8;
    let before = (last + 31) % 32;
    let front = u64::from(bits[0]) + u64::from(bits[1]) * 256 + u64::from(bits[2]) * 65536;
    let back = u64::from(bits[last]) + u64::from(bits[before]) * 256;
    let mixed = front + back * 65599 + many as u64 * 16777619 + version as u64 * 40503;
    mixed % 4294967296 * 2654435761 / 4294967296
}

// Whether there is a slot i and it holds the node (version, place).
pub fn holds(store: &[u8], i: usize, version: u32, place: Place) -> bool
    requires { (size_right Form.Counted (length store.now) ≡ true) × Proper place }
    ensures { NodeAt store.now i version (place_of place) result }
{
    let n = slot_count(Form::Counted, store);
    if n <= i {
        return false;
    }
    holds_node(Form::Counted, store, i, version, place)
}
