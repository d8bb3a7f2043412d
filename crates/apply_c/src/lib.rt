// Applying a batch at the boundary: the call answers 0 where it is accepted, else the number of refusal, and then it writes nothing. `grants`
// exports it.
#![tactic(auto)]

ghost use Rattle.contracts.specs.Apply.{ApplyExports};

use apply::apply;
use apply_put::send;

// Applies a batch to a store as a number; version, root and count of new records go out in 40 bytes.
pub fn grants_apply(store: &mut [u8], number: u32, batch: &[u8], answer: &mut [u8; 40]) -> u32
    ensures { ApplyExports number batch.now store.old answer.old result store.new answer.new }
{
    let applied = apply(store, number, batch);
    send(applied, answer)
}

// What `grants` exports. No proof file stands behind it, so that an idle one is refused by its contract alone.
pub fn applied_out(store: &mut [u8], number: u32, batch: &[u8], answer: &mut [u8; 40]) -> u32
    ensures { ApplyExports number batch.now store.old answer.old result store.new answer.new }
{
    grants_apply(store, number, batch, answer)
}
