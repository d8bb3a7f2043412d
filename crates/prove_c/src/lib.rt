// Proving at the boundary: the call answers 0 where it is accepted, else the number of refusal, and then it writes nothing. `grants` exports it.
#![tactic(auto)]

ghost use Rattle.std.proofs.Math.Option.{some};
ghost use Rattle.prove_c.specs.Export.{ProofTold};
ghost use Rattle.contracts.specs.Proves.{Proves, ProvesBy};
ghost use Rattle.prove_c.specs.Within.{proved_by};

use prove::prove;
use prove_told::told;
use read_open::as_many;
use refusal_numbers::Refusal;

// The proof for a key in a version, by a table of any length, fills the front of the room; its length goes out in four bytes.
fn prove_by(
    store: &[u8],
    index: &[u32],
    version: u32,
    key: &[u8],
    room: &mut [u8],
    length: &mut [u8; 4],
) -> u64
    ensures { ProofTold (proved_by store.now index.now version key.now room.old) room.old length.old result room.new length.new }
{
    let proved = prove(store, index, version, key, room);
    told(proved, length)
}

// The proof for a key in a version, by scans.
pub fn grants_prove(
    store: &[u8],
    version: u32,
    key: &[u8],
    room: &mut [u8],
    length: &mut [u8; 4],
) -> u64
    ensures { Proves store.now version key.now room.old length.old result room.new length.new }
{
    prove_by(store, &[], version, key, room, length)
}

// The proof for a key in a version, by a table lent with the store (2026-05). It goes like `read_c::get_indexed`, and is no plainer as one with it: the
// read would be a closure, whose clause says again what this contract says.
pub fn prove_indexed(
    store: &[u8],
    index: &[u32],
    version: u32,
    key: &[u8],
    room: &mut [u8],
    length: &mut [u8; 4],
) -> u64
    ensures { ProvesBy store.now (some index.now) version key.now room.old length.old result room.new length.new }
{
    if key.len() != 32 {
        return u64::from(Refusal::Not32Bytes.number());
    }
    if !as_many(store, index) {
        return u64::from(Refusal::WrongSize.number());
    }
    prove_by(store, index, version, key, room, length)
}

// What `grants` exports. No proof file stands behind it, so that an idle one is refused by its contract alone.
pub fn proved_out(
    store: &[u8],
    version: u32,
    key: &[u8],
    room: &mut [u8],
    length: &mut [u8; 4],
) -> u64
    ensures { Proves store.now version key.now room.old length.old result room.new length.new }
{
    grants_prove(store, version, key, room, length)
}
