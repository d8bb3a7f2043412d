// SHA-256 of a slice of bytes of any length.
#![tactic(auto)]

ghost use Rattle.std.specs.Prelude.{◌≡◌, ◌++◌, ◌∷◌, [], ℕ, ◌+◌, ◌*◌, ◌/◌, ◌<◌, ◌≤◌, length, get_or};
ghost use Rattle.terms.specs.Bits.{Bytes};
ghost use Rattle.hash.specs.BigEndian.{word_at};
ghost use Rattle.hash.specs.Hash.{hash_bytes};
ghost use Rattle.sha256.specs.Sha256.{hash_value, padded, sha256};
ghost use Rattle.sha256.specs.Rolling.{block_at};
ghost use Rattle.digest.specs.Tail.{last_of};

use hash::{Hash, word_at};
use sha256::{State, Words, compress, start, to_hash};

// Sixteen words, each by its number.
fn words_of<F: Fn(usize) -> u32>(word: F) -> Words
    requires { (k : ℕ) → k < 16 → F.pre word k }
    ensures { (m : Bytes) (p : ℕ) → ((k w : ℕ) → k < 16 → F.post word k w → w ≡ word_at m (p + k * 4)) → result ≡ block_at m p }
{
    Words {
        w0: word(0),
        w1: word(1),
        w2: word(2),
        w3: word(3),
        w4: word(4),
        w5: word(5),
        w6: word(6),
        w7: word(7),
        w8: word(8),
        w9: word(9),
        w10: word(10),
        w11: word(11),
        w12: word(12),
        w13: word(13),
        w14: word(14),
        w15: word(15),
    }
}

fn words_at(b: &[u8], at: usize) -> Words
    requires { at + 64 ≤ length b.now }
    ensures { result ≡ block_at b.now at }
{
    words_of(|k| word_at(b, at + k * 4))
}

// A byte of the message with the byte 128 after it, and then zeros for ever.
fn tail_byte(b: &[u8], at: usize) -> u8
    ensures { (result ≡ get_or (b.now ++ (128 ∷ [])) at 0) × (result < 256) }
{
    if at < b.len() {
        return b[at];
    }
    if at == b.len() {
        return 128;
    }
    0
}

// The word that begins there. Only one word of a message needs to be read byte by byte.
fn tail_word(b: &[u8], at: usize) -> u32
    requires { at ≤ length b.now + 128 }
    ensures { result ≡ word_at (b.now ++ (128 ∷ [])) at }
{
    if at + 4 <= b.len() {
        return word_at(b, at);
    }
    if b.len() < at {
        return 0;
    }
    u32::from_be_bytes([
        tail_byte(b, at),
        tail_byte(b, at + 1),
        tail_byte(b, at + 2),
        tail_byte(b, at + 3),
    ])
}

fn tail_words(b: &[u8], at: usize) -> Words
    requires { at ≤ length b.now + 64 }
    ensures { result ≡ block_at (b.now ++ (128 ∷ [])) at }
{
    words_of(|k| tail_word(b, at + k * 4))
}

// The last two words of the last block say how many bits a message of n bytes has.
fn last_words(x: Words, n: usize) -> Words
    ensures { result ≡ last_of x n }
{
    let mut y = x;
    y.w14 = (n / 0x2000_0000 % 0x1_0000_0000) as u32;
    y.w15 = (n % 0x2000_0000 * 8) as u32;
    y
}

fn whole_blocks(b: &[u8]) -> State
    ensures { result ≡ hash_value (padded b.now) (length b.now / 64) }
{
    let mut s = start();
    for i in 0..b.len() / 64 {
        s = compress(s, words_at(b, i * 64));
    }
    s
}

// The last hash value: the blocks that the message fills, then one or two with what is left of it and the padding.
fn hash_value(b: &[u8]) -> State
    ensures { result ≡ hash_value (padded b.now) (length (padded b.now) / 64) }
{
    let n = b.len();
    let at = n / 64 * 64;
    let s = whole_blocks(b);
    if n % 64 < 56 {
        return compress(s, last_words(tail_words(b, at), n));
    }
    let t = compress(s, tail_words(b, at));
    compress(t, last_words(tail_words(b, at + 64), n))
}

// SHA-256 of the slice.
pub fn digest(b: &[u8]) -> Hash
    ensures { hash_bytes result ≡ sha256 b.now }
{
    to_hash(hash_value(b))
}
