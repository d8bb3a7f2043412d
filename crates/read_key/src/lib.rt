// A key looked for from the root of a version on, for the key read of document 01, 'Reading and proving'. Writes nothing.
#![tactic(auto)]

ghost use Rattle.std.specs.Prelude.{◌≡◌, true, ◌<◌, length};
ghost use Rattle.layout.specs.Sizes.{room_of};
ghost use Rattle.layout.specs.Headers.{size_right};
ghost use Rattle.read_key.specs.Parts.{read_says, leaf_read, walk_read};

use hash::{Hash, hash_at};
use place::{Place, child_place, key_bit, same};
use read_step::{Seen, child, refusal};
use refusal_numbers::ReadRefusal;
use slots::{key_of, value_of};
use store::slot_of;
use terms::Form;

// What the leaf in slot i says of a key: its value if the key is its own.
fn leaf_read(store: &[u8], i: usize, key: &[u8]) -> Result<Option<Hash>, ReadRefusal>
    requires { (size_right Form.Counted (length store.now) ≡ true) × (i < room_of Form.Counted (length store.now)) }
    ensures { read_says result ≡ leaf_read i store.now key.now }
{
    let slot = slot_of(Form::Counted, store, i);
    if same(key, key_of(slot)) {
        let value = hash_at(value_of(slot), 0);
        return Ok(Some(value));
    }
    Ok(None)
}

// Walks by the key's bits from the root of a version to a leaf or a missing child, and finds by a table.
pub fn walk_read(
    store: &[u8],
    index: &[u32],
    version: u32,
    key: &[u8],
) -> Result<Option<Hash>, ReadRefusal>
    requires { (size_right Form.Counted (length store.now) ≡ true) × (length key.now ≡ 32) }
    ensures { read_says result ≡ walk_read store.now index.now version key.now }
{
    let mut place = Place::top();
    let mut seen = read_step::root(store, index, version);
    // Down the tree, which is no count.
    loop {
        match seen {
            Seen::Gap => return Ok(None),
            Seen::Stopped(trouble) => return Err(refusal(trouble)),
            Seen::Leaf(i) => return leaf_read(store, i, key),
            Seen::Inner(i) => {
                let side = key_bit(key, place.count);
                place = child_place(place, side);
                seen = child(store, index, i, side, place);
            }
        }
    }
}
