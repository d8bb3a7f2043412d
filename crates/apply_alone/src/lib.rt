// What becomes of a leaf that nothing is inserted beside, document 01: by what the run asks for its key.
#![tactic(auto)]

ghost use Rattle.terms.specs.Records.{grant};
ghost use Rattle.hash.specs.Hash.{hash_bytes};
ghost use Rattle.apply_alone.specs.Alone.{AloneBy};

use apply_outcome::{Change, Outcome};
use apply_place::Node;
use hash::{Hash, same_hash};

// What a run asks for a key.
#[derive(Clone, Copy)]
pub enum Own {
    Nothing,
    Insert { value: Hash },
    Delete,
}

// What becomes of a leaf (version, place) that nothing is inserted beside.
pub fn alone(new: u32, from: usize, version: u32, key: Hash, value: Hash, own: Own) -> Outcome
    ensures { AloneBy new from version (grant (hash_bytes key) (hash_bytes value)) own result }
{
    let stays = Outcome {
        change: Change::Unchanged,
        node: Node::Leaf {
            version,
            key,
            value,
        },
        reach: from,
    };
    match own {
        Own::Nothing => stays,
        Own::Insert { value: asked } => {
            if same_hash(asked, value) {
                return stays;
            }
            let node = Node::Leaf {
                version: new,
                key,
                value: asked,
            };
            Outcome {
                change: Change::Updated,
                node,
                reach: from,
            }
        }
        Own::Delete => Outcome {
            change: Change::Deleted,
            node: Node::Nothing,
            reach: from,
        },
    }
}
