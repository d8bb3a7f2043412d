// The root read and the key read of a store in lent memory, document 01, 'Reading and proving'. A read tests the header, not soundness, and
// writes nothing.
#![tactic(auto)]

ghost use Rattle.std.specs.Prelude.{◌≡◌};
ghost use Rattle.read_key.specs.Parts.{read_says};
ghost use Rattle.read_root.specs.Parts.{root_says};
ghost use Rattle.read.specs.Parts.{root_answer_by, key_answer_by};

use hash::Hash;
use read_key::walk_read;
use read_open::open;
use read_root::root_hash;
use refusal_numbers::{ReadRefusal, Refusal};

// Reads the root of a version by a table of any length; one without entries is the scan.
pub fn root(store: &[u8], index: &[u32], version: u32) -> Result<Hash, ReadRefusal>
    ensures { root_says result ≡ root_answer_by store.now index.now version }
{
    // The reads share this opening; a shared function with a closure for what follows it would be longer than these two lines.
    open(store, version)?;
    root_hash(store, index, version)
}

// Reads a key in a version, likewise.
pub fn get(
    store: &[u8],
    index: &[u32],
    version: u32,
    key: &[u8],
) -> Result<Option<Hash>, ReadRefusal>
    ensures { read_says result ≡ key_answer_by store.now index.now version key.now }
{
    if key.len() != 32 {
        return Err(ReadRefusal::Plain(Refusal::Not32Bytes));
    }
    open(store, version)?;
    walk_read(store, index, version, key)
}
