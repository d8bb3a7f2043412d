// What pruning does to a store, document 01, 'Pruning': whether a version is kept, and freeing every record retired since it or earlier.
#![tactic(auto)]

ghost use Rattle.std.specs.Prelude.{◌≡◌};
ghost use Rattle.meaning.specs.Calls.{is_kept};
ghost use Rattle.layout.specs.Stores.{store_of, HeaderWithin, SlotWithin};
ghost use Rattle.prune_free.specs.Free.{freed_slot, freed_count, Readable, Frees};

use store::{latest_of, oldest_of, retired_at, slot_count};
use store_put::clear_slot_at;
use terms::Form;

// Whether the version is in oldest to latest.
pub fn is_kept(store: &[u8], version: u32) -> bool
    requires { HeaderWithin store.now }
    ensures { result ≡ is_kept (store_of store.now) version }
{
    if version < oldest_of(store) {
        return false;
    }
    version <= latest_of(store)
}

// Frees slot i if its retired-since is the version or earlier; answers how many records it freed.
fn free_slot(store: &mut [u8], i: usize, version: u32) -> u32
    requires { SlotWithin Form.Counted i store.old }
    ensures count { result ≡ freed_count version i store.old }
    ensures bytes { store.new ≡ freed_slot version i store.old }
{
    let since = retired_at(Form::Counted, store, i);
    if since == 0 {
        return 0;
    }
    if version < since {
        return 0;
    }
    clear_slot_at(Form::Counted, store, i);
    1
}

// Frees every record retired since the version or earlier; answers how many.
pub fn free_retired(store: &mut [u8], version: u32) -> u32
    requires { Readable store.old }
    ensures { Frees version store.old result store.new }
{
    let slots = slot_count(Form::Counted, store);
    let mut freed = 0;
    for i in 0..slots {
        freed += free_slot(store, i, version);
    }
    freed
}
