// The hash of a leaf and of an inner node, from hashes as numbers: no message is put together in memory.
#![tactic(auto)]

ghost use Rattle.std.specs.Prelude.{◌≡◌, ◌+◌, ◌*◌, ◌%◌, ◌<◌, length, take, drop};
ghost use Rattle.hash.specs.Hash.{hash_bytes};
ghost use Rattle.sha256.specs.Sha256.{padded, sha256};
ghost use Rattle.sha256.specs.Rolling.{block_at};
ghost use Rattle.nodehash.specs.Node.{leaf_hash, inner_hash};
ghost use Rattle.nodehash.specs.Words.{message, seam_word, middle_word};

use hash::{Hash, hash_at};
use sha256::{Words, compress, start, to_hash};
use sha256_second_block::compress_second;

fn seam(x: u64, y: u64) -> u32
    ensures { result ≡ seam_word x y }
{
    (x % 256 * 0x100_0000 + y / 0x100_0000_0000 % 0x100_0000) as u32
}

fn middle(x: u64) -> u32
    ensures { result ≡ middle_word x }
{
    (x / 256 % 0x1_0000_0000) as u32
}

pub fn first_words(t: u64, l: Hash, r: Hash) -> Words
    requires { t < 256 }
    ensures { result ≡ block_at (padded (message t l r)) 0 }
{
    Words {
        w0: seam(t, l.a),
        w1: middle(l.a),
        w2: seam(l.a, l.b),
        w3: middle(l.b),
        w4: seam(l.b, l.c),
        w5: middle(l.c),
        w6: seam(l.c, l.d),
        w7: middle(l.d),
        w8: seam(l.d, r.a),
        w9: middle(r.a),
        w10: seam(r.a, r.b),
        w11: middle(r.b),
        w12: seam(r.b, r.c),
        w13: middle(r.c),
        w14: seam(r.c, r.d),
        w15: middle(r.d),
    }
}

// The first word of the second block: the message's last byte, and the byte 128.
pub fn last_word(x: u64) -> u32
    ensures { result ≡ x % 256 * 16777216 + 8388608 }
{
    (x % 256 * 0x100_0000 + 0x80_0000) as u32
}

// SHA-256 of the byte t and the two hashes.
fn node_hash(t: u64, l: Hash, r: Hash) -> Hash
    requires { t < 256 }
    ensures { hash_bytes result ≡ sha256 (message t l r) }
{
    let s = compress(start(), first_words(t, l, r));
    to_hash(compress_second(s, last_word(r.d)))
}

// The hash of the leaf of a grant, given as its key and its value one after the other, as a slot, a batch and a proof have them.
pub fn leaf_hash(grant: &[u8]) -> Hash
    requires { length grant.now ≡ 64 }
    ensures { hash_bytes result ≡ leaf_hash (take 32 grant.now) (drop 32 grant.now) }
{
    node_hash(1, hash_at(grant, 0), hash_at(grant, 32))
}

// The same, of a key and a value by their numbers.
pub fn grant_hash(key: Hash, value: Hash) -> Hash
    ensures { hash_bytes result ≡ leaf_hash (hash_bytes key) (hash_bytes value) }
{
    node_hash(1, key, value)
}

// The hash of an inner node, given its children's hashes.
pub fn inner_hash(l: Hash, r: Hash) -> Hash
    ensures { hash_bytes result ≡ inner_hash (hash_bytes l) (hash_bytes r) }
{
    node_hash(0, l, r)
}
