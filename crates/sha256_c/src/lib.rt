// The hashes for C and Rust to link. A slice is passed as a pointer and a length, an array as a pointer alone.
#![tactic(auto)]

ghost use Rattle.std.specs.Prelude.{◌≡◌, take, drop};
ghost use Rattle.sha256.specs.Sha256.{sha256};
ghost use Rattle.nodehash.specs.Node.{leaf_hash, inner_hash};

use hash::{hash_at, put_hash};

// SHA-256 of the bytes. It always answers 0.
pub fn grants_sha256(bytes: &[u8], digest: &mut [u8; 32]) -> u32
    ensures value { result ≡ 0 }
    ensures digest_after { digest.new ≡ sha256 bytes.now }
{
    put_hash(digest, digest::digest(bytes));
    0
}

// The hash of a leaf, from its key and its value one after the other. It always answers 0.
pub fn grants_leaf_hash(grant: &[u8; 64], digest: &mut [u8; 32]) -> u32
    ensures value { result ≡ 0 }
    ensures digest_after { digest.new ≡ leaf_hash (take 32 grant.now) (drop 32 grant.now) }
{
    put_hash(digest, nodehash::leaf_hash(grant));
    0
}

// The hash of an inner node, from its children's hashes. It always answers 0.
pub fn grants_inner_hash(left: &[u8; 32], right: &[u8; 32], digest: &mut [u8; 32]) -> u32
    ensures value { result ≡ 0 }
    ensures digest_after { digest.new ≡ inner_hash left.now right.now }
{
    put_hash(
        digest,
        nodehash::inner_hash(hash_at(left, 0), hash_at(right, 0)),
    );
    0
}
