// Whether a table is the right one of a sound store, document 02, request 2026-05: one look at each slot and at each entry.
#![tactic(auto)]

ghost use Rattle.std.specs.Prelude.{◌≡◌, ◌≤◌, ◌<◌, length};
ghost use Rattle.indexed.specs.Table.{Right};
ghost use Rattle.indexed.proofs.Counted.{used_in};
ghost use Rattle.layout.specs.Sizes.{room_of};
ghost use Rattle.layout.specs.Stores.{slot_no, store_of, Has};
ghost use Rattle.lookup.specs.Lookup.{is_used};
ghost use Rattle.promises.specs.Calls.{SoundBytes};
ghost use Rattle.index_look.specs.Looks.{Decided, Told, ToldThere, Began, Follows, Ascending, RestEmpty};

use hash::{hash_at, same_hash};
use place::before;
use slots::bits_of;
use store::{count_at, kind_at, slot_count, slot_of, version_at};
use terms::Form;

// Of two slots with the same bits, whether the first stands before the second: by the bit count, then by the version.
fn ahead_there(store: &[u8], i: usize, j: usize) -> bool
    requires { Has Form.Counted store.now i × Has Form.Counted store.now j }
    ensures { ToldThere store.now i j result }
{
    let its = count_at(Form::Counted, store, i);
    let other = count_at(Form::Counted, store, j);
    if its != other {
        return its < other;
    }
    version_at(Form::Counted, store, i) < version_at(Form::Counted, store, j)
}

// Whether the record of one slot stands before that of another: by the bits, then by the bit count, then by the version. A node and its left child have the same
// bits, so whether they are the same is asked first, eight bytes at a time.
pub fn ahead(store: &[u8], i: usize, j: usize) -> bool
    requires { Has Form.Counted store.now i × Has Form.Counted store.now j }
    ensures { Told store.now i j result }
{
    let own = bits_of(slot_of(Form::Counted, store, i));
    let its = bits_of(slot_of(Form::Counted, store, j));
    if same_hash(hash_at(own, 0), hash_at(its, 0)) {
        return ahead_there(store, i, j);
    }
    before(own, its)
}

// Whether slot i of a sound store holds a record.
pub fn in_use(store: &[u8], i: usize) -> bool
    requires { SoundBytes store.now × (i < room_of Form.Counted (length store.now)) }
    ensures { result ≡ is_used (slot_no Form.Counted i store.now) }
{
    kind_at(Form::Counted, store, i) != 0
}

// How many slots of a sound store hold a record.
pub fn used_slots(store: &[u8]) -> usize
    requires { SoundBytes store.now }
    ensures { result ≡ used_in (store_of store.now).slots }
{
    let n = slot_count(Form::Counted, store);
    let mut many = 0;
    for i in 0..n {
        if in_use(store, i) {
            many += 1;
        }
    }
    many
}

// Whether entry k names a slot that holds a record, and one that stands after that of the entry before.
fn follows(store: &[u8], n: usize, table: &[u32], k: usize) -> bool
    requires { SoundBytes store.now × (n ≡ room_of Form.Counted (length store.now)) × (length table.now ≡ n) × (k < n) × Began store.now table.now k }
    ensures { Decided result (Follows store.now table.now k) }
{
    let i = table[k] as usize;
    if n <= i {
        return false;
    }
    if !in_use(store, i) {
        return false;
    }
    if k == 0 {
        return true;
    }
    ahead(store, table[k - 1] as usize, i)
}

// Whether each of the first `many` entries does.
fn ascending(store: &[u8], n: usize, table: &[u32], many: usize) -> bool
    requires { SoundBytes store.now × (n ≡ room_of Form.Counted (length store.now)) × (length table.now ≡ n) × (many ≤ n) }
    ensures { Decided result (Ascending store.now table.now many) }
{
    for k in 0..many {
        if !follows(store, n, table, k) {
            return false;
        }
    }
    true
}

// Whether the entries from `many` on are all the capacity.
fn rest_empty(n: usize, table: &[u32], many: usize) -> bool
    requires { (length table.now ≡ n) × (many ≤ n) }
    ensures { Decided result (RestEmpty table.now many) }
{
    table[many..].iter().all(|entry| *entry as usize == n)
}

// Whether a table is the right one of a sound store.
pub fn is_right(store: &[u8], table: &[u32]) -> bool
    requires { SoundBytes store.now × (length table.now ≡ room_of Form.Counted (length store.now)) }
    ensures { Decided result (Right (store_of store.now) table.now) }
{
    let n = slot_count(Form::Counted, store);
    let many = used_slots(store);
    if !ascending(store, n, table, many) {
        return false;
    }
    rest_empty(n, table, many)
}
