// SHA-256's compression of one block. `specs/Sha256.antt` is FIPS 180-4; what the proofs say of this code is in terms of it.
#![tactic(auto)]

ghost use Rattle.std.specs.Prelude.{◌≡◌, ◌<◌};
ghost use Rattle.hash.specs.Hash.{hash_bytes};
ghost use Rattle.sha256.specs.Sha256.{scheduled, round, added, H0, state_bytes};
ghost use Rattle.sha256.specs.Rolling.{rolls, turns, folded};

use hash::{Hash, join};
use sha256_words::{add, big_sigma0, big_sigma1, ch, maj, sigma0, sigma1};

// The eight working variables, and the eight words of a hash value.
#[derive(Clone, Copy)]
pub struct State {
    pub a: u32,
    pub b: u32,
    pub c: u32,
    pub d: u32,
    pub e: u32,
    pub f: u32,
    pub g: u32,
    pub h: u32,
}

// Sixteen words of the message schedule, one after another.
#[derive(Clone, Copy)]
pub struct Words {
    pub w0: u32,
    pub w1: u32,
    pub w2: u32,
    pub w3: u32,
    pub w4: u32,
    pub w5: u32,
    pub w6: u32,
    pub w7: u32,
    pub w8: u32,
    pub w9: u32,
    pub w10: u32,
    pub w11: u32,
    pub w12: u32,
    pub w13: u32,
    pub w14: u32,
    pub w15: u32,
}

// The working variables, and the words that the last rounds used.
#[derive(Clone, Copy)]
pub struct Rolled {
    pub s: State,
    pub x: Words,
}

// The next word of the message schedule, from those 2, 7, 15 and 16 before it.
pub fn schedule(p: u32, q: u32, r: u32, s: u32) -> u32
    ensures { result ≡ scheduled p q r s }
{
    add(add(add(sigma1(p), q), sigma0(r)), s)
}

pub fn step(s: State, k: u32, w: u32) -> State
    ensures { result ≡ round s k w }
{
    let t1 = add(add(add(add(s.h, big_sigma1(s.e)), ch(s.e, s.f, s.g)), k), w);
    let t2 = add(big_sigma0(s.a), maj(s.a, s.b, s.c));
    State {
        a: add(t1, t2),
        b: s.a,
        c: s.b,
        d: s.c,
        e: add(s.d, t1),
        f: s.e,
        g: s.f,
        h: s.g,
    }
}

// Four functions of sixteen rounds, each with one caller, and constants in the code: so the compiler makes one straight run of all 64.
// Each word is made just before its round.
fn rounds0(s: State, x: Words) -> State
    ensures { result ≡ turns 0 16 s x }
{
    let s1 = step(s, 0x428a2f98, x.w0);
    let s2 = step(s1, 0x71374491, x.w1);
    let s3 = step(s2, 0xb5c0fbcf, x.w2);
    let s4 = step(s3, 0xe9b5dba5, x.w3);
    let s5 = step(s4, 0x3956c25b, x.w4);
    let s6 = step(s5, 0x59f111f1, x.w5);
    let s7 = step(s6, 0x923f82a4, x.w6);
    let s8 = step(s7, 0xab1c5ed5, x.w7);
    let s9 = step(s8, 0xd807aa98, x.w8);
    let s10 = step(s9, 0x12835b01, x.w9);
    let s11 = step(s10, 0x243185be, x.w10);
    let s12 = step(s11, 0x550c7dc3, x.w11);
    let s13 = step(s12, 0x72be5d74, x.w12);
    let s14 = step(s13, 0x80deb1fe, x.w13);
    let s15 = step(s14, 0x9bdc06a7, x.w14);
    let s16 = step(s15, 0xc19bf174, x.w15);
    s16
}

fn rounds1(q: Rolled) -> Rolled
    ensures { (result.x ≡ rolls 16 q.x) × (result.s ≡ turns 16 16 q.s result.x) }
{
    let s = q.s;
    let x = q.x;
    let n0 = schedule(x.w14, x.w9, x.w1, x.w0);
    let s1 = step(s, 0xe49b69c1, n0);
    let n1 = schedule(x.w15, x.w10, x.w2, x.w1);
    let s2 = step(s1, 0xefbe4786, n1);
    let n2 = schedule(n0, x.w11, x.w3, x.w2);
    let s3 = step(s2, 0x0fc19dc6, n2);
    let n3 = schedule(n1, x.w12, x.w4, x.w3);
    let s4 = step(s3, 0x240ca1cc, n3);
    let n4 = schedule(n2, x.w13, x.w5, x.w4);
    let s5 = step(s4, 0x2de92c6f, n4);
    let n5 = schedule(n3, x.w14, x.w6, x.w5);
    let s6 = step(s5, 0x4a7484aa, n5);
    let n6 = schedule(n4, x.w15, x.w7, x.w6);
    let s7 = step(s6, 0x5cb0a9dc, n6);
    let n7 = schedule(n5, n0, x.w8, x.w7);
    let s8 = step(s7, 0x76f988da, n7);
    let n8 = schedule(n6, n1, x.w9, x.w8);
    let s9 = step(s8, 0x983e5152, n8);
    let n9 = schedule(n7, n2, x.w10, x.w9);
    let s10 = step(s9, 0xa831c66d, n9);
    let n10 = schedule(n8, n3, x.w11, x.w10);
    let s11 = step(s10, 0xb00327c8, n10);
    let n11 = schedule(n9, n4, x.w12, x.w11);
    let s12 = step(s11, 0xbf597fc7, n11);
    let n12 = schedule(n10, n5, x.w13, x.w12);
    let s13 = step(s12, 0xc6e00bf3, n12);
    let n13 = schedule(n11, n6, x.w14, x.w13);
    let s14 = step(s13, 0xd5a79147, n13);
    let n14 = schedule(n12, n7, x.w15, x.w14);
    let s15 = step(s14, 0x06ca6351, n14);
    let n15 = schedule(n13, n8, n0, x.w15);
    let s16 = step(s15, 0x14292967, n15);
    let y = Words {
        w0: n0,
        w1: n1,
        w2: n2,
        w3: n3,
        w4: n4,
        w5: n5,
        w6: n6,
        w7: n7,
        w8: n8,
        w9: n9,
        w10: n10,
        w11: n11,
        w12: n12,
        w13: n13,
        w14: n14,
        w15: n15,
    };
    Rolled { s: s16, x: y }
}

fn rounds2(q: Rolled) -> Rolled
    ensures { (result.x ≡ rolls 16 q.x) × (result.s ≡ turns 32 16 q.s result.x) }
{
    let s = q.s;
    let x = q.x;
    let n0 = schedule(x.w14, x.w9, x.w1, x.w0);
    let s1 = step(s, 0x27b70a85, n0);
    let n1 = schedule(x.w15, x.w10, x.w2, x.w1);
    let s2 = step(s1, 0x2e1b2138, n1);
    let n2 = schedule(n0, x.w11, x.w3, x.w2);
    let s3 = step(s2, 0x4d2c6dfc, n2);
    let n3 = schedule(n1, x.w12, x.w4, x.w3);
    let s4 = step(s3, 0x53380d13, n3);
    let n4 = schedule(n2, x.w13, x.w5, x.w4);
    let s5 = step(s4, 0x650a7354, n4);
    let n5 = schedule(n3, x.w14, x.w6, x.w5);
    let s6 = step(s5, 0x766a0abb, n5);
    let n6 = schedule(n4, x.w15, x.w7, x.w6);
    let s7 = step(s6, 0x81c2c92e, n6);
    let n7 = schedule(n5, n0, x.w8, x.w7);
    let s8 = step(s7, 0x92722c85, n7);
    let n8 = schedule(n6, n1, x.w9, x.w8);
    let s9 = step(s8, 0xa2bfe8a1, n8);
    let n9 = schedule(n7, n2, x.w10, x.w9);
    let s10 = step(s9, 0xa81a664b, n9);
    let n10 = schedule(n8, n3, x.w11, x.w10);
    let s11 = step(s10, 0xc24b8b70, n10);
    let n11 = schedule(n9, n4, x.w12, x.w11);
    let s12 = step(s11, 0xc76c51a3, n11);
    let n12 = schedule(n10, n5, x.w13, x.w12);
    let s13 = step(s12, 0xd192e819, n12);
    let n13 = schedule(n11, n6, x.w14, x.w13);
    let s14 = step(s13, 0xd6990624, n13);
    let n14 = schedule(n12, n7, x.w15, x.w14);
    let s15 = step(s14, 0xf40e3585, n14);
    let n15 = schedule(n13, n8, n0, x.w15);
    let s16 = step(s15, 0x106aa070, n15);
    let y = Words {
        w0: n0,
        w1: n1,
        w2: n2,
        w3: n3,
        w4: n4,
        w5: n5,
        w6: n6,
        w7: n7,
        w8: n8,
        w9: n9,
        w10: n10,
        w11: n11,
        w12: n12,
        w13: n13,
        w14: n14,
        w15: n15,
    };
    Rolled { s: s16, x: y }
}

fn rounds3(q: Rolled) -> Rolled
    ensures { (result.x ≡ rolls 16 q.x) × (result.s ≡ turns 48 16 q.s result.x) }
{
    let s = q.s;
    let x = q.x;
    let n0 = schedule(x.w14, x.w9, x.w1, x.w0);
    let s1 = step(s, 0x19a4c116, n0);
    let n1 = schedule(x.w15, x.w10, x.w2, x.w1);
    let s2 = step(s1, 0x1e376c08, n1);
    let n2 = schedule(n0, x.w11, x.w3, x.w2);
    let s3 = step(s2, 0x2748774c, n2);
    let n3 = schedule(n1, x.w12, x.w4, x.w3);
    let s4 = step(s3, 0x34b0bcb5, n3);
    let n4 = schedule(n2, x.w13, x.w5, x.w4);
    let s5 = step(s4, 0x391c0cb3, n4);
    let n5 = schedule(n3, x.w14, x.w6, x.w5);
    let s6 = step(s5, 0x4ed8aa4a, n5);
    let n6 = schedule(n4, x.w15, x.w7, x.w6);
    let s7 = step(s6, 0x5b9cca4f, n6);
    let n7 = schedule(n5, n0, x.w8, x.w7);
    let s8 = step(s7, 0x682e6ff3, n7);
    let n8 = schedule(n6, n1, x.w9, x.w8);
    let s9 = step(s8, 0x748f82ee, n8);
    let n9 = schedule(n7, n2, x.w10, x.w9);
    let s10 = step(s9, 0x78a5636f, n9);
    let n10 = schedule(n8, n3, x.w11, x.w10);
    let s11 = step(s10, 0x84c87814, n10);
    let n11 = schedule(n9, n4, x.w12, x.w11);
    let s12 = step(s11, 0x8cc70208, n11);
    let n12 = schedule(n10, n5, x.w13, x.w12);
    let s13 = step(s12, 0x90befffa, n12);
    let n13 = schedule(n11, n6, x.w14, x.w13);
    let s14 = step(s13, 0xa4506ceb, n13);
    let n14 = schedule(n12, n7, x.w15, x.w14);
    let s15 = step(s14, 0xbef9a3f7, n14);
    let n15 = schedule(n13, n8, n0, x.w15);
    let s16 = step(s15, 0xc67178f2, n15);
    let y = Words {
        w0: n0,
        w1: n1,
        w2: n2,
        w3: n3,
        w4: n4,
        w5: n5,
        w6: n6,
        w7: n7,
        w8: n8,
        w9: n9,
        w10: n10,
        w11: n11,
        w12: n12,
        w13: n13,
        w14: n14,
        w15: n15,
    };
    Rolled { s: s16, x: y }
}

fn rounds(s: State, x: Words) -> State
    ensures { result ≡ turns 0 64 s x }
{
    let r = rounds3(rounds2(rounds1(Rolled {
        s: rounds0(s, x),
        x: x,
    })));
    r.s
}

pub fn add_state(x: State, s: State) -> State
    ensures { result ≡ added x s }
{
    State {
        a: add(x.a, s.a),
        b: add(x.b, s.b),
        c: add(x.c, s.c),
        d: add(x.d, s.d),
        e: add(x.e, s.e),
        f: add(x.f, s.f),
        g: add(x.g, s.g),
        h: add(x.h, s.h),
    }
}

// The hash value after one block more.
pub fn compress(s: State, x: Words) -> State
    ensures { result ≡ folded s x }
{
    add_state(rounds(s, x), s)
}

// The initial hash value.
pub fn start() -> State
    ensures { result ≡ H0 }
{
    State {
        a: 0x6a09e667,
        b: 0xbb67ae85,
        c: 0x3c6ef372,
        d: 0xa54ff53a,
        e: 0x510e527f,
        f: 0x9b05688c,
        g: 0x1f83d9ab,
        h: 0x5be0cd19,
    }
}

// The eight words as a hash.
pub fn to_hash(s: State) -> Hash
    ensures { hash_bytes result ≡ state_bytes s }
{
    Hash {
        a: join(s.a, s.b),
        b: join(s.c, s.d),
        c: join(s.e, s.f),
        d: join(s.g, s.h),
    }
}
