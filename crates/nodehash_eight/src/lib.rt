// The hashes of eight nodes side by side: two runs over eight lanes.
#![tactic(auto)]

ghost use Rattle.std.specs.Prelude.{◌≡◌, ◌<◌, length};
ghost use Rattle.hash.specs.Hash.{hash_bytes};
ghost use Rattle.sha256.specs.Sha256.{sha256, state_bytes};
ghost use Rattle.sha256_second_start.specs.Second.{second_block};
ghost use Rattle.sha256_eight.specs.Lanes.{value_inside};
ghost use Rattle.nodehash.specs.Words.{message};
ghost use Rattle.nodehash_eight.specs.Eight.{Put, Starts, SecondBlocks, AllHashed};

use hash::Hash;
use nodehash::{first_words, last_word};
use sha256::{Words, start, to_hash};
use sha256_eight::{compress_eight, put_value, put_words, value_in};

// A message of 65 bytes: a byte that tells its kind, and two hashes.
#[derive(Clone, Copy)]
pub struct Message {
    pub kind: u64,
    pub left: Hash,
    pub right: Hash,
}

// Lane l has this message: its first block, and after the eight blocks the first word of its second, whose others are known.
pub fn put_message(x: &mut [u32; 136], l: usize, m: Message)
    requires { (length x.old ≡ 136) × (l < 8) × (m.kind < 256) }
    ensures { Put x.old x.new l (sha256 (message m.kind m.left m.right)) }
{
    put_words(x, l, first_words(m.kind, m.left, m.right));
    x[128 + l] = last_word(m.right.d);
}

fn starts() -> [u32; 64]
    ensures { Starts 8 result }
{
    let mut r = [0u32; 64];
    for l in 0..8 {
        put_value(&mut r, l, start());
    }
    r
}

// The words of a second block, from the first of them.
fn second_words(w: u32) -> Words
    ensures { result ≡ second_block w }
{
    Words {
        w0: w,
        w1: 0,
        w2: 0,
        w3: 0,
        w4: 0,
        w5: 0,
        w6: 0,
        w7: 0,
        w8: 0,
        w9: 0,
        w10: 0,
        w11: 0,
        w12: 0,
        w13: 0,
        w14: 0,
        w15: 520,
    }
}

fn second_blocks(x: &[u32; 136]) -> [u32; 136]
    ensures { SecondBlocks x.now 8 result }
{
    let mut r = [0u32; 136];
    for l in 0..8 {
        put_words(&mut r, l, second_words(x[128 + l]));
    }
    r
}

// The hash values of eight messages.
pub fn eight_hashes(x: &[u32; 136]) -> [u32; 64]
    ensures { AllHashed x.now result }
{
    let z = starts();
    let s = compress_eight(&z, x);
    let y = second_blocks(x);
    compress_eight(&s, &y)
}

// The hash of lane l.
pub fn hash_in(s: &[u32; 64], l: usize) -> Hash
    requires { l < 8 }
    ensures { hash_bytes result ≡ state_bytes (value_inside s.now l) }
{
    to_hash(value_in(s, l))
}
