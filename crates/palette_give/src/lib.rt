// Several proofs over lent bytes, document 02, request 2026-04: a first pass over the keys measures, a second one writes.
#![tactic(auto)]

ghost use Rattle.std.specs.Prelude.{◌≡◌, true, length};
ghost use Rattle.layout.specs.Headers.{size_right};
ghost use Rattle.layout.specs.Stores.{store_of};
ghost use Rattle.meaning.specs.Calls.{accepted};
ghost use Rattle.palette_rules.specs.Palette.{whole_keys, fitted_together};
ghost use Rattle.read_near.specs.Near.{Led};
ghost use Rattle.prove.specs.Parts.{proved_says};
ghost use Rattle.palette_give.specs.Together.{planned_in, together_length, together_bytes, Gives};

use key_list::KEY_SIZE;
use prove_plan::plan_of;
use prove_write::write;
use refusal_numbers::{ReadRefusal, Refusal};
use terms::Form;

// How long all proofs are together, or the first refusal in the order asked.
fn measure(
    store: &[u8],
    index: &[u32],
    kids: &[u16],
    version: u32,
    keys: &[u8],
) -> Result<u32, ReadRefusal>
    requires { (size_right Form.Counted (length store.now) ≡ true) × (whole_keys keys.now ≡ true) × Led (store_of store.now) index.now kids.now }
    ensures { proved_says result ≡ together_length (planned_in store.now index.now version keys.now) }
{
    let mut total = 0;
    for key in keys.chunks_exact(KEY_SIZE) {
        let plan = plan_of(store, index, kids, version, key);
        plan.shape?;
        total += plan.length;
    }
    Ok(total as u32)
}

// Writes the proofs one after the other into a part that is as long as all together.
fn fill(part: &mut [u8], store: &[u8], index: &[u32], kids: &[u16], version: u32, keys: &[u8])
    requires { (size_right Form.Counted (length store.now) ≡ true) × (whole_keys keys.now ≡ true) × (together_length (planned_in store.now index.now version keys.now) ≡ accepted (length part.old)) × Led (store_of store.now) index.now kids.now }
    ensures { part.new ≡ together_bytes (planned_in store.now index.now version keys.now) }
{
    let mut start = 0;
    for key in keys.chunks_exact(KEY_SIZE) {
        let plan = plan_of(store, index, kids, version, key);
        let next = start + plan.length;
        write(&mut part[start..next], store, key, plan);
        start = next;
    }
}

// Gives the proofs, len bytes together, if there is room.
fn give(
    store: &[u8],
    index: &[u32],
    kids: &[u16],
    version: u32,
    keys: &[u8],
    len: u32,
    room: &mut [u8],
) -> Result<u32, ReadRefusal>
    requires { (size_right Form.Counted (length store.now) ≡ true) × (whole_keys keys.now ≡ true) × (together_length (planned_in store.now index.now version keys.now) ≡ accepted len) × Led (store_of store.now) index.now kids.now }
    ensures { Gives (fitted_together (length room.old) (planned_in store.now index.now version keys.now)) room.old room.new result }
{
    let end = len as usize;
    if room.len() < end {
        return Err(ReadRefusal::Plain(Refusal::NoRoom));
    }
    fill(&mut room[0..end], store, index, kids, version, keys);
    Ok(len)
}

// Measures, and then gives.
pub fn give_measured(
    store: &[u8],
    index: &[u32],
    kids: &[u16],
    version: u32,
    keys: &[u8],
    room: &mut [u8],
) -> Result<u32, ReadRefusal>
    requires { (size_right Form.Counted (length store.now) ≡ true) × (whole_keys keys.now ≡ true) × Led (store_of store.now) index.now kids.now }
    ensures { Gives (fitted_together (length room.old) (planned_in store.now index.now version keys.now)) room.old room.new result }
{
    let len = measure(store, index, kids, version, keys)?;
    give(store, index, kids, version, keys, len, room)
}
