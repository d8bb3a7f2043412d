// Pruning: a store that check accepts is pruned.
#![tactic(auto)]

ghost use Rattle.prune_sound.specs.Prune.{pruned_says, PruneDoes};

use check_store::check;
use prune_sound::prune_sound;
use refusal_numbers::Refusal;
use terms::Form;

// Prunes a store to a version, where check accepts it; refused, nothing is written.
pub fn prune(store: &mut [u8], version: u32) -> Result<u32, Refusal>
    ensures { PruneDoes version store.old (pruned_says result) store.new }
{
    check(Form::Counted, store)?;
    prune_sound(store, version)
}
