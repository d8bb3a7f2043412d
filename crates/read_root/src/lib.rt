// The root record of a version looked for, for the root read of document 01, 'Reading and proving'. Writes nothing.
#![tactic(auto)]

ghost use Rattle.std.specs.Prelude.{◌≡◌, true, length};
ghost use Rattle.meaning.specs.Reading.{root_read};
ghost use Rattle.indexed.specs.Index.{root_by};
ghost use Rattle.nodehash.specs.Node.{leaf_hash, inner_hash};
ghost use Rattle.layout.specs.Headers.{size_right};
ghost use Rattle.layout.specs.Stores.{store_of};
ghost use Rattle.read_root.specs.Parts.{root_says};

use hash::{Hash, no_hash};
use index_sights::look_root_by;
use read_hash::record_hash;
use read_step::{Trouble, refusal};
use refusal_numbers::ReadRefusal;
use sights::Sight;
use store::slot_of;
use terms::Form;

// The hash of a version's root record, found by a table, or zeros; refused where it is spoilt.
pub fn root_hash(store: &[u8], index: &[u32], version: u32) -> Result<Hash, ReadRefusal>
    requires { size_right Form.Counted (length store.now) ≡ true }
    ensures { root_says result ≡ root_read leaf_hash inner_hash (root_by index.now (store_of store.now) version) }
{
    let sight = look_root_by(store, index, version);
    match sight {
        Sight::Matches(i) => {
            let hash = record_hash(slot_of(Form::Counted, store, i));
            Ok(hash)
        }
        Sight::Nothing => {
            let zeros = no_hash();
            Ok(zeros)
        }
        Sight::Spoilt(i) => {
            let slot = i as u16;
            Err(refusal(Trouble::Spoilt(slot)))
        }
    }
}
