// A record by itself, for the exact test of its slot, document 01, 'Sound': its version, its life, how many slots hold its node, and its
// children; each with a pass over the slots at most.
#![tactic(auto)]

ghost use Rattle.std.specs.Prelude.{◌≡◌, true, ◌&&◌, ◌<◌, length};
ghost use Rattle.terms.specs.Bits.{left, right};
ghost use Rattle.place.specs.Place.{Proper};
ghost use Rattle.layout.specs.Headers.{size_right};
ghost use Rattle.check_alone.specs.Parts.{Headed, life_right, found_on, AloneSays};

use check_holder::{child_found, holders};
use check_kin::Kept;
use place::Place;
use terms::Form;

// A record but for its body.
#[derive(Clone, Copy)]
pub struct Head {
    pub place: Place,
    pub version: u32,
    pub retired: u32,
}

// Whether retired-since is 0, or above the version, above oldest and at most latest.
pub fn life_right(kept: Kept, version: u32, retired: u32) -> bool
    ensures { result ≡ life_right kept version retired }
{
    if retired == 0 {
        return true;
    }
    if retired <= version {
        return false;
    }
    if retired <= kept.oldest {
        return false;
    }
    retired <= kept.latest
}

// Whether a record's version and life are right, and one slot alone holds its node.
pub fn alone_right(form: Form, store: &[u8], kept: Kept, head: Head) -> bool
    requires { Headed form store.now kept head }
    ensures { AloneSays form store.now head result }
{
    if kept.latest < head.version {
        return false;
    }
    if !life_right(kept, head.version, head.retired) {
        return false;
    }
    let place = head.place;
    holders(form, store, head.version, place) == 1
}

// Whether the children of an inner record are missing or found.
pub fn children_found(form: Form, store: &[u8], place: Place, a: u32, b: u32) -> bool
    requires { (size_right form (length store.now) ≡ true) × Proper place × (place.count < 256) }
    ensures { result ≡ (found_on form store.now place left a && found_on form store.now place right b) }
{
    if !child_found(form, store, a, place.left()) {
        return false;
    }
    child_found(form, store, b, place.right())
}
