// What a read answers, told to a caller in another language: the number of refusal or 0, and the root, or whether the key was found and its value. Refused, nothing is written.
#![tactic(auto)]

ghost use Rattle.std.specs.Prelude.{◌≡◌, ◌∷◌, length};
ghost use Rattle.hash.specs.Hash.{hash_bytes};
ghost use Rattle.read.specs.Parts.{root_answer_by, key_answer_by};
ghost use Rattle.meaning.specs.Answers.{found_bytes, Exported};

use hash::{Hash, no_hash, put_hash};

// The root of a version, by a table of any length.
pub fn root_by(store: &[u8], index: &[u32], version: u32, root: &mut [u8; 32]) -> u64
    ensures { Exported (root_answer_by store.now index.now version) (λ x. x) root.old result root.new }
{
    let read = read::root(store, index, version);
    match read {
        Err(refusal) => refusal.code(),
        Ok(hash) => {
            put_hash(root, hash);
            0
        }
    }
}

// Writes whether a key was found and 32 bytes.
fn put_found(found: &mut [u8], present: u8, value: Hash)
    requires { length found.old ≡ 33 }
    ensures { found.new ≡ present ∷ hash_bytes value }
{
    found[0] = present;
    put_hash(&mut found[1..33], value);
}

// A key in a version, by a table of any length: 1 and its value, or 0 and 32 zero bytes where it is absent.
pub fn get_by(store: &[u8], index: &[u32], version: u32, key: &[u8], found: &mut [u8; 33]) -> u64
    ensures { Exported (key_answer_by store.now index.now version key.now) found_bytes found.old result found.new }
{
    let read = read::get(store, index, version, key);
    match read {
        Err(refusal) => refusal.code(),
        Ok(Some(value)) => {
            put_found(found, 1, value);
            0
        }
        Ok(None) => {
            put_found(found, 0, no_hash());
            0
        }
    }
}
