// The plan of an absence proof over lent bytes, document 01, 'Reading and proving': by the neighbours that both searches find where a walk has ended.
#![tactic(auto)]

ghost use Rattle.layout.specs.Stores.{store_of};
ghost use Rattle.read_near.specs.Near.{Led};
ghost use Rattle.prove_trails.specs.Searches.{WalkedIn};
ghost use Rattle.prove_shape.specs.Plans.{Plans};
ghost use Rattle.prove_neighbours.specs.Absence.{absent_from};

use proofrecords::ABSENCE_HEAD;
use prove_paths::neighbour_length;
use prove_shape::{Plan, absence_shape};
use prove_trails::{Walked, neighbour};

// Plans the absence proof of a key where its walk has ended, by both searches.
pub fn absent(store: &[u8], index: &[u32], kids: &[u16], key: &[u8], walked: Walked) -> Plan
    requires { WalkedIn store.now walked × Led (store_of store.now) index.now kids.now }
    ensures { Plans store.now key.now (absent_from store.now index.now key.now walked) result }
{
    let first = neighbour(store, index, kids, key, walked, false);
    let second = neighbour(store, index, kids, key, walked, true);
    let left = first.way;
    let right = second.way;
    let shape = absence_shape(left, right);
    let length = ABSENCE_HEAD + neighbour_length(first) + neighbour_length(second);
    Plan {
        shape,
        first,
        second,
        length,
    }
}
