// The hash of a record, from the bytes of its slot.
#![tactic(auto)]

ghost use Rattle.std.specs.Prelude.{◌≡◌, length};
ghost use Rattle.meaning.specs.Reading.{body_hash};
ghost use Rattle.hash.specs.Hash.{hash_bytes};
ghost use Rattle.nodehash.specs.Node.{leaf_hash, inner_hash};
ghost use Rattle.layout.specs.Sizes.{slot_size};
ghost use Rattle.read_step.specs.Walk.{body_in};

use hash::{Hash, hash_at};
use nodehash::{inner_hash, leaf_hash};
use slots::{child_hash, grant_of};
use slots_form::is_leaf;
use terms::Form;

// The hash of a record, from what it holds.
pub fn record_hash(slot: &[u8]) -> Hash
    requires { length slot.now ≡ slot_size Form.Counted }
    ensures { hash_bytes result ≡ body_hash leaf_hash inner_hash (body_in slot.now) }
{
    if is_leaf(slot) {
        return leaf_hash(grant_of(slot));
    }
    let left = hash_at(child_hash(slot, false), 0);
    let right = hash_at(child_hash(slot, true), 0);
    inner_hash(left, right)
}
