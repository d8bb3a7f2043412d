// The first 32 rounds of the second block of a node's message, request 2026-06: one byte of data, the byte 128, zeros, and the number of bits.
// What does not hang on the byte is in the constants; the terms of the schedule that are zero are left out.
#![tactic(auto)]

ghost use Rattle.std.specs.Prelude.{◌≡◌};
ghost use Rattle.sha256.specs.Sha256.{scheduled, round};
ghost use Rattle.sha256.specs.Rolling.{rolls, turns};
ghost use Rattle.sha256_second_start.specs.Second.{second_block};

use sha256::{Rolled, State, Words, step};
use sha256_words::{add, big_sigma0, big_sigma1, ch, maj, sigma0, sigma1};

// A round whose word is in its constant.
fn known(s: State, k: u32) -> State
    ensures { result ≡ round s k 0 }
{
    let t1 = add(add(add(s.h, big_sigma1(s.e)), ch(s.e, s.f, s.g)), k);
    let t2 = add(big_sigma0(s.a), maj(s.a, s.b, s.c));
    State {
        a: add(t1, t2),
        b: s.a,
        c: s.b,
        d: s.c,
        e: add(s.d, t1),
        f: s.e,
        g: s.f,
        h: s.g,
    }
}

// The next word where only the word 2 before it is not zero.
fn after(p: u32) -> u32
    ensures { result ≡ scheduled p 0 0 0 }
{
    sigma1(p)
}

// The next word where those 15 and 16 before it are zero.
fn after_two(p: u32, q: u32) -> u32
    ensures { result ≡ scheduled p q 0 0 }
{
    add(sigma1(p), q)
}

// Words 1 to 14 are zero.
pub fn second0(s: State, w: u32) -> State
    ensures { result ≡ turns 0 16 s (second_block w) }
{
    let s1 = step(s, 0x428a2f98, w);
    let s2 = known(s1, 0x71374491);
    let s3 = known(s2, 0xb5c0fbcf);
    let s4 = known(s3, 0xe9b5dba5);
    let s5 = known(s4, 0x3956c25b);
    let s6 = known(s5, 0x59f111f1);
    let s7 = known(s6, 0x923f82a4);
    let s8 = known(s7, 0xab1c5ed5);
    let s9 = known(s8, 0xd807aa98);
    let s10 = known(s9, 0x12835b01);
    let s11 = known(s10, 0x243185be);
    let s12 = known(s11, 0x550c7dc3);
    let s13 = known(s12, 0x72be5d74);
    let s14 = known(s13, 0x80deb1fe);
    let s15 = known(s14, 0x9bdc06a7);
    let s16 = known(s15, 0xc19bf37c);
    s16
}

// Word 16 is word 0 again; words 17, 19 and 21 do not hang on it.
pub fn second1(s: State, w: u32) -> Rolled
    ensures { (result.x ≡ rolls 16 (second_block w)) × (result.s ≡ turns 16 16 s result.x) }
{
    let s1 = step(s, 0xe49b69c1, w);
    let s2 = known(s1, 0xf1034786);
    let n2 = after(w);
    let s3 = step(s2, 0x0fc19dc6, n2);
    let s4 = known(s3, 0x440cf396);
    let n4 = after(n2);
    let s5 = step(s4, 0x2de92c6f, n4);
    let s6 = known(s5, 0x6d48d8be);
    let n6 = after_two(n4, 520);
    let s7 = step(s6, 0x5cb0a9dc, n6);
    let n7 = add(0xa0802025, w);
    let s8 = step(s7, 0x76f988da, n7);
    let n8 = after_two(n6, 0x01450000);
    let s9 = step(s8, 0x983e5152, n8);
    let n9 = after_two(n7, n2);
    let s10 = step(s9, 0xa831c66d, n9);
    let n10 = after_two(n8, 0x200051ca);
    let s11 = step(s10, 0xb00327c8, n10);
    let n11 = after_two(n9, n4);
    let s12 = step(s11, 0xbf597fc7, n11);
    let n12 = after_two(n10, 0x22d45414);
    let s13 = step(s12, 0xc6e00bf3, n12);
    let n13 = after_two(n11, n6);
    let s14 = step(s13, 0xd5a79147, n13);
    let n14 = add(after_two(n12, n7), 0x10820045);
    let s15 = step(s14, 0x06ca6351, n14);
    let n15 = add(add(after_two(n13, n8), sigma0(w)), 520);
    let s16 = step(s15, 0x14292967, n15);
    let y = Words {
        w0: w,
        w1: 0x01450000,
        w2: n2,
        w3: 0x200051ca,
        w4: n4,
        w5: 0x22d45414,
        w6: n6,
        w7: n7,
        w8: n8,
        w9: n9,
        w10: n10,
        w11: n11,
        w12: n12,
        w13: n13,
        w14: n14,
        w15: n15,
    };
    Rolled { s: s16, x: y }
}
