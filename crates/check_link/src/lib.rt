// What one parent says of a record below it, document 01, 'Sound', from the fields of both.
#![tactic(auto)]

ghost use Rattle.std.specs.Prelude.{◌≡◌, false, cond, ◌-◌, ◌≤◌, max, eqb};
ghost use Rattle.terms.specs.Fields.{all_of};
ghost use Rattle.check_link.specs.Link.{link_tests, SaidOf, Short};

use check_kin::{Kept, kept_life, later};
use hash::{Hash, same_hash};
use place::Place;
use slots::Child;

// A record below the root, as its parents are asked about it: it stands one bit below `up`, on the left or the right.
#[derive(Clone, Copy)]
pub struct Below {
    pub up: Place,
    pub right: bool,
    pub version: u32,
    pub ends: u64,
    pub leaf: bool,
    pub hash: Hash,
}

// Whether a record of that kind, beside a child of version `other`, is a lone leaf.
fn lone_leaf(leaf: bool, other: u32) -> bool
    ensures { result ≡ cond leaf (eqb other 0) false }
{
    if leaf {
        return other == 0;
    }
    false
}

// What a parent of that version and end of life says, with the child that it names, beside a child of version
// `other`: how many kept versions it lives at, or nothing, where the stored hash or the life isn't the record's, or
// the record is a lone leaf.
pub fn link(
    kept: Kept,
    below: Below,
    version: u32,
    ends: u64,
    child: Child,
    other: u32,
) -> Option<u64>
    requires { ends ≤ 4294967296 }
    ensures { Short result × SaidOf (all_of (link_tests kept below version ends child other)) (ends - max kept.oldest version) result }
{
    if !same_hash(below.hash, child.hash) {
        return None;
    }
    if later(kept.oldest, version) < below.version {
        return None;
    }
    if below.ends < ends {
        return None;
    }
    if lone_leaf(below.leaf, other) {
        return None;
    }
    Some(kept_life(kept.oldest, version, ends))
}
