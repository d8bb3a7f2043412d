// Pruning a sound store: every record retired since a version or earlier is freed, and oldest becomes that version.
#![tactic(auto)]

ghost use Rattle.promises.specs.Calls.{SoundBytes};
ghost use Rattle.prune_sound.specs.Prune.{pruned_says, PruneDoes};

use prune_free::{free_retired, is_kept};
use refusal_numbers::Refusal;
use store_put::put_oldest;

// Prunes a sound store to a version, and answers how many records were freed.
pub fn prune_sound(store: &mut [u8], version: u32) -> Result<u32, Refusal>
    requires { SoundBytes store.old }
    ensures { PruneDoes version store.old (pruned_says result) store.new }
{
    if !is_kept(store, version) {
        return Err(Refusal::NotKept);
    }
    let freed = free_retired(store, version);
    put_oldest(store, version);
    Ok(freed)
}
