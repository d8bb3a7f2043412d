// Several proofs in one call over lent bytes, document 02, request 2026-04: the list and the header are tested, and children are guessed where that pays.
#![tactic(auto)]

ghost use Rattle.std.specs.Prelude.{◌≡◌, true, [], length};
ghost use Rattle.layout.specs.Headers.{size_right};
ghost use Rattle.layout.specs.Stores.{store_of};
ghost use Rattle.palette_rules.specs.Palette.{whole_keys, fitted_together};
ghost use Rattle.read_near.specs.Near.{Led};
ghost use Rattle.palette_give.specs.Together.{planned_in, Gives};
ghost use Rattle.palette.specs.Answer.{palette_answer_by};

use key_list::{KEY_SIZE, whole_keys};
use order_kids::children;
use palette_give::give_measured;
use palette_near::follow_all;
use read_open::open;
use refusal_numbers::{ReadRefusal, Refusal};
use terms::Form;

// From so many keys on a call guesses where all children stand.
const FEW_KEYS: usize = 8;

// Measures and gives by the slots of children that were guessed.
fn give_near(
    store: &[u8],
    index: &[u32],
    kids: &[u16; 32768],
    version: u32,
    keys: &[u8],
    room: &mut [u8],
) -> Result<u32, ReadRefusal>
    requires { (size_right Form.Counted (length store.now) ≡ true) × (whole_keys keys.now ≡ true) × Led (store_of store.now) index.now kids.now }
    ensures { Gives (fitted_together (length room.old) (planned_in store.now index.now version keys.now)) room.old room.new result }
{
    give_measured(store, index, kids, version, keys, room)
}

// The same for a list of many keys without a lent table: the slots of all children are guessed once for the call.
fn give_many(store: &[u8], version: u32, keys: &[u8], room: &mut [u8]) -> Result<u32, ReadRefusal>
    requires { (size_right Form.Counted (length store.now) ≡ true) × (whole_keys keys.now ≡ true) }
    ensures { Gives (fitted_together (length room.old) (planned_in store.now [] version keys.now)) room.old room.new result }
{
    let mut kids = [0u16; 32768];
    children(store, &mut kids);
    give_near(store, &[], &kids, version, keys, room)
}

// The same by a lent table: what stands on the keys' ways is found once for the call.
fn give_found(
    store: &[u8],
    index: &[u32],
    version: u32,
    keys: &[u8],
    room: &mut [u8],
) -> Result<u32, ReadRefusal>
    requires { (size_right Form.Counted (length store.now) ≡ true) × (whole_keys keys.now ≡ true) }
    ensures { Gives (fitted_together (length room.old) (planned_in store.now index.now version keys.now)) room.old room.new result }
{
    let mut kids = [0u16; 32768];
    follow_all(store, index, &mut kids, version, keys);
    give_near(store, index, &kids, version, keys, room)
}

// The same for a list of few keys or by a lent table: few keys are planned without a guess.
fn give_each(
    store: &[u8],
    index: &[u32],
    version: u32,
    keys: &[u8],
    room: &mut [u8],
) -> Result<u32, ReadRefusal>
    requires { (size_right Form.Counted (length store.now) ≡ true) × (whole_keys keys.now ≡ true) }
    ensures { Gives (fitted_together (length room.old) (planned_in store.now index.now version keys.now)) room.old room.new result }
{
    if keys.len() < FEW_KEYS * KEY_SIZE {
        return give_measured(store, index, &[], version, keys, room);
    }
    give_found(store, index, version, keys, room)
}

// Whether guessing pays: there is no lent table, and there are as many keys.
fn pays(index: &[u32], keys: &[u8]) -> bool
    ensures { result ≡ true → index.now ≡ [] }
{
    if index.len() != 0 {
        return false;
    }
    FEW_KEYS * KEY_SIZE <= keys.len()
}

// Proves each key of a list present or absent in a version, by a table of any length; one without entries is the scan. The proofs fill the front
// of the room and the rest stays; refused, nothing is written.
pub fn palette(
    store: &[u8],
    index: &[u32],
    version: u32,
    keys: &[u8],
    room: &mut [u8],
) -> Result<u32, ReadRefusal>
    ensures { Gives (palette_answer_by store.now index.now version keys.now (length room.old)) room.old room.new result }
{
    if !whole_keys(keys) {
        return Err(ReadRefusal::Plain(Refusal::Not32Bytes));
    }
    open(store, version)?;
    if pays(index, keys) {
        return give_many(store, version, keys, room);
    }
    give_each(store, index, version, keys, room)
}
