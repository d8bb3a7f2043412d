// Pruning at the boundary: the call answers 0 where it is accepted, else the number of refusal, and then it writes nothing. `grants` exports it.
#![tactic(auto)]

ghost use Rattle.contracts.specs.Prune.{PruneExports};

use fields::put_u32;
use prune::prune;

// Prunes a store to a version; how many records were freed goes out in four bytes.
pub fn grants_prune(store: &mut [u8], version: u32, freed: &mut [u8; 4]) -> u32
    ensures { PruneExports version store.old freed.old result store.new freed.new }
{
    let answer = prune(store, version);
    match answer {
        Err(refusal) => refusal.number(),
        Ok(count) => {
            put_u32(freed, 0, count);
            0
        }
    }
}

// What `grants` exports. No proof file stands behind it, so that an idle one is refused by its contract alone.
pub fn pruned_out(store: &mut [u8], version: u32, freed: &mut [u8; 4]) -> u32
    ensures { PruneExports version store.old freed.old result store.new freed.new }
{
    grants_prune(store, version, freed)
}
