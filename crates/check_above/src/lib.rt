// What stands above a record, for the exact test of its slot, document 01, 'Sound': its parents, or, of a root, the other roots; no version is
// tried.
#![tactic(auto)]

ghost use Rattle.check_alone.specs.Parts.{Headed};
ghost use Rattle.check_above.specs.Above.{AboveSays};

use check_alone::Head;
use check_kin::{Kept, ends_before, kept_life};
use check_link::Below;
use check_parents::parents_right;
use check_roots::roots_apart;
use hash::Hash;
use place::{front, key_bit};
use terms::Form;

// Whether a record of that kind and hash is right below its parents, or as a root beside the other roots.
pub fn above_right(form: Form, store: &[u8], kept: Kept, head: Head, leaf: bool, hash: Hash) -> bool
    requires { Headed form store.now kept head }
    ensures { AboveSays form store.now head leaf hash result }
{
    let place = head.place;
    let version = head.version;
    let count = place.count;
    let ends = ends_before(kept.latest, head.retired);
    if count == 0 {
        return roots_apart(form, store, kept, version, ends);
    }
    let bits = place.bits;
    let up = front(&bits, count - 1);
    let right = key_bit(&bits, count - 1);
    let below = Below {
        up,
        right,
        version,
        ends,
        leaf,
        hash,
    };
    parents_right(
        form,
        store,
        kept,
        below,
        kept_life(kept.oldest, version, ends),
    )
}
