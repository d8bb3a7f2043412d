// The proof check for callers in other languages, document 01, 'Forms to follow': an editor needs this alone.
#![tactic(auto)]

ghost use Rattle.std.specs.Prelude.{◌≡◌, length};
ghost use Rattle.meaning.specs.Reading.{present};
ghost use Rattle.meaning.specs.Answers.{found_bytes};
ghost use Rattle.hash.specs.Hash.{hash_bytes};
ghost use Rattle.verify_rules.specs.Verify.{Verifies};

use fields::clear;
use hash::{Hash, put_hash};
use verify::verify;

// Writes 1 and the value.
fn put_present(found: &mut [u8], hash: Hash)
    requires { length found.old ≡ 33 }
    ensures { found.new ≡ found_bytes (present (hash_bytes hash)) }
{
    found[0] = 1;
    put_hash(&mut found[1..33], hash);
}

// The check for callers in other languages: 0 where a proof is accepted, with 1 and the value or 0 and zero bytes in `found`; else the
// number of refusal, with `found` as it was.
pub fn grants_verify(root: &[u8], key: &[u8], proof: &[u8], found: &mut [u8; 33]) -> u32
    ensures { Verifies root.now key.now proof.now found.old result found.new }
{
    let answer = verify(root, key, proof);
    match answer {
        Err(refusal) => refusal.number(),
        Ok(Some(hash)) => {
            put_present(found, hash);
            0
        }
        Ok(None) => {
            clear(found);
            0
        }
    }
}
