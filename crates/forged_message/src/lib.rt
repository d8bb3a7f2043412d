// A message of 65 bytes by its parts, request 2026-12: its hash, and whether it is another with the same hash. No message is put together in
// memory.
#![tactic(auto)]

ghost use Rattle.std.specs.Prelude.{◌≡◌, ◌&&◌, not};
ghost use Rattle.terms.specs.Bits.{same_bytes};
ghost use Rattle.terms.specs.Records.{zeros};
ghost use Rattle.hash.specs.Hash.{hash_bytes};
ghost use Rattle.sha256.specs.Sha256.{sha256};
ghost use Rattle.forged_message.specs.Parts.{message_bytes, first_word};

use hash::{Hash, is_zero, same_hash};
use nodehash::{grant_hash, inner_hash};

// Of a leaf its key and value; of an inner node the hashes of its left and right child.
#[derive(Clone, Copy, PartialEq, Eq)]
pub struct Message {
    pub leaf: bool,
    pub first: Hash,
    pub second: Hash,
}

// SHA-256 of a message.
pub fn hash_of(m: Message) -> Hash
    ensures { hash_bytes result ≡ sha256 (message_bytes m) }
{
    if m.leaf {
        return grant_hash(m.first, m.second);
    }
    inner_hash(m.first, m.second)
}

// The first eight bytes of a message's hash, as a number.
pub fn hash_word(m: Message) -> u64
    ensures { result ≡ first_word (sha256 (message_bytes m)) }
{
    let h = hash_of(m);
    h.a
}

// Whether two messages have the same bytes.
pub fn same_message(m: Message, n: Message) -> bool
    ensures { result ≡ same_bytes (message_bytes m) (message_bytes n) }
{
    m == n
}

// Whether a message is another than m and has the same hash.
pub fn collides(n: Message, m: Message) -> bool
    ensures { result ≡ not (same_bytes (message_bytes n) (message_bytes m)) && same_bytes (sha256 (message_bytes n)) (sha256 (message_bytes m)) }
{
    if same_message(n, m) {
        return false;
    }
    same_hash(hash_of(n), hash_of(m))
}

// Whether the hash of a message is 32 zero bytes.
pub fn hashes_to_zero(m: Message) -> bool
    ensures { result ≡ same_bytes (sha256 (message_bytes m)) zeros }
{
    is_zero(hash_of(m))
}
