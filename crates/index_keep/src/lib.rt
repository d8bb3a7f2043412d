// The right table of a sound store, document 02, request 2026-05: guessed and looked at, and where the guess is wrong picked entry by entry.
#![tactic(auto)]

ghost use Rattle.std.specs.Prelude.{◌≡◌, length};
ghost use Rattle.indexed.specs.Table.{Right};
ghost use Rattle.layout.specs.Sizes.{room_of};
ghost use Rattle.layout.specs.Stores.{store_of};
ghost use Rattle.promises.specs.Calls.{SoundBytes};

use index_fewer::fewer;
use index_look::is_right;
use index_more::more;
use index_pick::pick;
use store::slot_count;
use terms::Form;

// Writes the right table, whatever the table holds.
pub fn build(store: &[u8], table: &mut [u32])
    requires { SoundBytes store.now × (length table.old ≡ room_of Form.Counted (length store.now)) }
    ensures { Right (store_of store.now) table.new }
{
    let n = slot_count(Form::Counted, store);
    table.fill(n as u32);
    more(store, n, table, 1);
    if is_right(store, table) {
        return;
    }
    pick(store, table);
}

// The same, where the table may be right already.
fn settle(store: &[u8], table: &mut [u32])
    requires { SoundBytes store.now × (length table.old ≡ room_of Form.Counted (length store.now)) }
    ensures { Right (store_of store.now) table.new }
{
    if is_right(store, table) {
        return;
    }
    build(store, table);
}

// The same, from the right table of the store before a version was made.
pub fn keep_more(store: &[u8], table: &mut [u32], version: u32)
    requires { SoundBytes store.now × (length table.old ≡ room_of Form.Counted (length store.now)) }
    ensures { Right (store_of store.now) table.new }
{
    let n = slot_count(Form::Counted, store);
    more(store, n, table, version);
    settle(store, table);
}

// The same, from the right table of the store before records were freed.
pub fn keep_fewer(store: &[u8], table: &mut [u32])
    requires { SoundBytes store.now × (length table.old ≡ room_of Form.Counted (length store.now)) }
    ensures { Right (store_of store.now) table.new }
{
    let n = slot_count(Form::Counted, store);
    fewer(store, n, table);
    settle(store, table);
}
