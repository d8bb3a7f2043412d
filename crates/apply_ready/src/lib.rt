// What is looked at before a batch is applied: the free slots, and the version of the root.
#![tactic(auto)]

ghost use Rattle.std.specs.Prelude.{◌≡◌};
ghost use Rattle.meaning.specs.Store.{root_of};
ghost use Rattle.layout.specs.Stores.{store_of};
ghost use Rattle.apply_place.specs.Placing.{Stored};
ghost use Rattle.apply_ready.specs.Ready.{root_version, FreeCount};

use fields::all_zero;
use lookup_root::find_root;
use store::{slot_count, slot_of, version_at};
use terms::Form;

// How many slots are free.
pub fn count_free(store: &[u8]) -> usize
    requires { Stored store.now }
    ensures { FreeCount store.now result }
{
    let n = slot_count(Form::Counted, store);
    let mut free = 0;
    for i in 0..n {
        if all_zero(slot_of(Form::Counted, store, i)) {
            free += 1;
        }
    }
    free
}

// The version of the root of a version; 0 where there is none.
pub fn root_version(store: &[u8], version: u32) -> u32
    requires { Stored store.now }
    ensures { result ≡ root_version (root_of (store_of store.now) version) }
{
    let found = find_root(Form::Counted, store, version);
    let Some(i) = found else {
        return 0;
    };
    version_at(Form::Counted, store, i)
}
