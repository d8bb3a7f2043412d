// The reads at the boundary, by scans and by a lent table: each answers 0 where it is accepted, else the number of refusal, with a spoilt slot + 1 in the high half, and then it writes nothing. `grants` exports them.
#![tactic(auto)]

ghost use Rattle.std.proofs.Math.Option.{some};
ghost use Rattle.contracts.specs.Reads.{ReadsRoot, ReadsRootBy, ReadsKey, ReadsKeyBy};

use read_open::as_many;
use read_told::{get_by, root_by};
use refusal_numbers::Refusal;

// The root of a version, by scans.
pub fn grants_root(store: &[u8], version: u32, root: &mut [u8; 32]) -> u64
    ensures { ReadsRoot store.now version root.old result root.new }
{
    root_by(store, &[], version, root)
}

// A key in a version, by scans.
pub fn grants_get(store: &[u8], version: u32, key: &[u8], found: &mut [u8; 33]) -> u64
    ensures { ReadsKey store.now version key.now found.old result found.new }
{
    get_by(store, &[], version, key, found)
}

// The root of a version, by a table lent with the store (2026-05).
pub fn root_indexed(store: &[u8], index: &[u32], version: u32, root: &mut [u8; 32]) -> u64
    ensures { ReadsRootBy store.now (some index.now) version root.old result root.new }
{
    if !as_many(store, index) {
        return u64::from(Refusal::WrongSize.number());
    }
    root_by(store, index, version, root)
}

// A key in a version, by a table lent with the store (2026-05).
pub fn get_indexed(
    store: &[u8],
    index: &[u32],
    version: u32,
    key: &[u8],
    found: &mut [u8; 33],
) -> u64
    ensures { ReadsKeyBy store.now (some index.now) version key.now found.old result found.new }
{
    if key.len() != 32 {
        return u64::from(Refusal::Not32Bytes.number());
    }
    if !as_many(store, index) {
        return u64::from(Refusal::WrongSize.number());
    }
    get_by(store, index, version, key, found)
}

// What `grants` exports. No proof file stands behind it, so that an idle one is refused by its contract alone.
pub fn root_out(store: &[u8], version: u32, root: &mut [u8; 32]) -> u64
    ensures { ReadsRoot store.now version root.old result root.new }
{
    grants_root(store, version, root)
}

// What `grants` exports. No proof file stands behind it, so that an idle one is refused by its contract alone.
pub fn found_out(store: &[u8], version: u32, key: &[u8], found: &mut [u8; 33]) -> u64
    ensures { ReadsKey store.now version key.now found.old result found.new }
{
    grants_get(store, version, key, found)
}
