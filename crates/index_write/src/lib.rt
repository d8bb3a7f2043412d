// Applying a batch and pruning with the table kept right, document 02, request 2026-05: 16 is tested after 3 and before what is the call's own. Refused, neither the
// store nor the table is written.
#![tactic(auto)]

ghost use Rattle.contracts.specs.Tabled.{AppliesBoth, PrunesBoth};

use apply_answer::Applied;
use apply_put::put_answer;
use apply_sound::apply_sound;
use fields::put_u32;
use index_keep::{keep_fewer, keep_more};
use index_open::told;
use prune_sound::prune_sound;

// Applies a batch to a store as a number; version, root and count of new records go out in 40 bytes.
pub fn apply_both(
    store: &mut [u8],
    table: &mut [u32],
    number: u32,
    batch: &[u8],
    answer: &mut [u8; 40],
) -> u32
    ensures { AppliesBoth number batch.now store.old table.old answer.old result store.new table.new answer.new }
{
    if let Err(refusal) = told(store, table) {
        return refusal.number();
    }
    let applied = apply_sound(store, number, batch);
    match applied {
        Err(own) => own.number(),
        Ok(
            Applied {
                version,
                root,
                count,
            },
        ) => {
            keep_more(store, table, version);
            put_answer(answer, version, root, count);
            0
        }
    }
}

// Prunes a store to a version; how many records were freed goes out in four bytes.
pub fn prune_both(store: &mut [u8], table: &mut [u32], version: u32, freed: &mut [u8; 4]) -> u32
    ensures { PrunesBoth version store.old table.old freed.old result store.new table.new freed.new }
{
    if let Err(refusal) = told(store, table) {
        return refusal.number();
    }
    let pruned = prune_sound(store, version);
    match pruned {
        Err(own) => own.number(),
        Ok(count) => {
            keep_fewer(store, table);
            put_u32(freed, 0, count);
            0
        }
    }
}
