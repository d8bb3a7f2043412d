// Eight compressions side by side: a loop whose turns don't hang on each other, which the compiler makes one run over eight lanes, or two
// runs over four. Its rounds are functions of their own, each with one caller, so that they are in the loop. The words of the lanes stand side by
// side too, word k of lane l at 8k + l, so that a vector is read and written at once.
#![tactic(auto)]

ghost use Rattle.std.specs.Prelude.{◌≡◌, ◌<◌};
ghost use Rattle.sha256_eight.specs.Lanes.{words_in, value_inside, value_list, word_list, spread, Compressed};
ghost use Rattle.sha256.specs.Rolling.{rolls, turns, folded};

use sha256::{Rolled, State, Words, add_state, schedule, step};

fn lane0(s: State, x: Words) -> State
    ensures { result ≡ turns 0 16 s x }
{
    let s1 = step(s, 0x428a2f98, x.w0);
    let s2 = step(s1, 0x71374491, x.w1);
    let s3 = step(s2, 0xb5c0fbcf, x.w2);
    let s4 = step(s3, 0xe9b5dba5, x.w3);
    let s5 = step(s4, 0x3956c25b, x.w4);
    let s6 = step(s5, 0x59f111f1, x.w5);
    let s7 = step(s6, 0x923f82a4, x.w6);
    let s8 = step(s7, 0xab1c5ed5, x.w7);
    let s9 = step(s8, 0xd807aa98, x.w8);
    let s10 = step(s9, 0x12835b01, x.w9);
    let s11 = step(s10, 0x243185be, x.w10);
    let s12 = step(s11, 0x550c7dc3, x.w11);
    let s13 = step(s12, 0x72be5d74, x.w12);
    let s14 = step(s13, 0x80deb1fe, x.w13);
    let s15 = step(s14, 0x9bdc06a7, x.w14);
    let s16 = step(s15, 0xc19bf174, x.w15);
    s16
}

fn lane1(q: Rolled) -> Rolled
    ensures { (result.x ≡ rolls 16 q.x) × (result.s ≡ turns 16 16 q.s result.x) }
{
    let s = q.s;
    let x = q.x;
    let n0 = schedule(x.w14, x.w9, x.w1, x.w0);
    let s1 = step(s, 0xe49b69c1, n0);
    let n1 = schedule(x.w15, x.w10, x.w2, x.w1);
    let s2 = step(s1, 0xefbe4786, n1);
    let n2 = schedule(n0, x.w11, x.w3, x.w2);
    let s3 = step(s2, 0x0fc19dc6, n2);
    let n3 = schedule(n1, x.w12, x.w4, x.w3);
    let s4 = step(s3, 0x240ca1cc, n3);
    let n4 = schedule(n2, x.w13, x.w5, x.w4);
    let s5 = step(s4, 0x2de92c6f, n4);
    let n5 = schedule(n3, x.w14, x.w6, x.w5);
    let s6 = step(s5, 0x4a7484aa, n5);
    let n6 = schedule(n4, x.w15, x.w7, x.w6);
    let s7 = step(s6, 0x5cb0a9dc, n6);
    let n7 = schedule(n5, n0, x.w8, x.w7);
    let s8 = step(s7, 0x76f988da, n7);
    let n8 = schedule(n6, n1, x.w9, x.w8);
    let s9 = step(s8, 0x983e5152, n8);
    let n9 = schedule(n7, n2, x.w10, x.w9);
    let s10 = step(s9, 0xa831c66d, n9);
    let n10 = schedule(n8, n3, x.w11, x.w10);
    let s11 = step(s10, 0xb00327c8, n10);
    let n11 = schedule(n9, n4, x.w12, x.w11);
    let s12 = step(s11, 0xbf597fc7, n11);
    let n12 = schedule(n10, n5, x.w13, x.w12);
    let s13 = step(s12, 0xc6e00bf3, n12);
    let n13 = schedule(n11, n6, x.w14, x.w13);
    let s14 = step(s13, 0xd5a79147, n13);
    let n14 = schedule(n12, n7, x.w15, x.w14);
    let s15 = step(s14, 0x06ca6351, n14);
    let n15 = schedule(n13, n8, n0, x.w15);
    let s16 = step(s15, 0x14292967, n15);
    let y = Words {
        w0: n0,
        w1: n1,
        w2: n2,
        w3: n3,
        w4: n4,
        w5: n5,
        w6: n6,
        w7: n7,
        w8: n8,
        w9: n9,
        w10: n10,
        w11: n11,
        w12: n12,
        w13: n13,
        w14: n14,
        w15: n15,
    };
    Rolled { s: s16, x: y }
}

fn lane2(q: Rolled) -> Rolled
    ensures { (result.x ≡ rolls 16 q.x) × (result.s ≡ turns 32 16 q.s result.x) }
{
    let s = q.s;
    let x = q.x;
    let n0 = schedule(x.w14, x.w9, x.w1, x.w0);
    let s1 = step(s, 0x27b70a85, n0);
    let n1 = schedule(x.w15, x.w10, x.w2, x.w1);
    let s2 = step(s1, 0x2e1b2138, n1);
    let n2 = schedule(n0, x.w11, x.w3, x.w2);
    let s3 = step(s2, 0x4d2c6dfc, n2);
    let n3 = schedule(n1, x.w12, x.w4, x.w3);
    let s4 = step(s3, 0x53380d13, n3);
    let n4 = schedule(n2, x.w13, x.w5, x.w4);
    let s5 = step(s4, 0x650a7354, n4);
    let n5 = schedule(n3, x.w14, x.w6, x.w5);
    let s6 = step(s5, 0x766a0abb, n5);
    let n6 = schedule(n4, x.w15, x.w7, x.w6);
    let s7 = step(s6, 0x81c2c92e, n6);
    let n7 = schedule(n5, n0, x.w8, x.w7);
    let s8 = step(s7, 0x92722c85, n7);
    let n8 = schedule(n6, n1, x.w9, x.w8);
    let s9 = step(s8, 0xa2bfe8a1, n8);
    let n9 = schedule(n7, n2, x.w10, x.w9);
    let s10 = step(s9, 0xa81a664b, n9);
    let n10 = schedule(n8, n3, x.w11, x.w10);
    let s11 = step(s10, 0xc24b8b70, n10);
    let n11 = schedule(n9, n4, x.w12, x.w11);
    let s12 = step(s11, 0xc76c51a3, n11);
    let n12 = schedule(n10, n5, x.w13, x.w12);
    let s13 = step(s12, 0xd192e819, n12);
    let n13 = schedule(n11, n6, x.w14, x.w13);
    let s14 = step(s13, 0xd6990624, n13);
    let n14 = schedule(n12, n7, x.w15, x.w14);
    let s15 = step(s14, 0xf40e3585, n14);
    let n15 = schedule(n13, n8, n0, x.w15);
    let s16 = step(s15, 0x106aa070, n15);
    let y = Words {
        w0: n0,
        w1: n1,
        w2: n2,
        w3: n3,
        w4: n4,
        w5: n5,
        w6: n6,
        w7: n7,
        w8: n8,
        w9: n9,
        w10: n10,
        w11: n11,
        w12: n12,
        w13: n13,
        w14: n14,
        w15: n15,
    };
    Rolled { s: s16, x: y }
}

fn lane3(q: Rolled) -> Rolled
    ensures { (result.x ≡ rolls 16 q.x) × (result.s ≡ turns 48 16 q.s result.x) }
{
    let s = q.s;
    let x = q.x;
    let n0 = schedule(x.w14, x.w9, x.w1, x.w0);
    let s1 = step(s, 0x19a4c116, n0);
    let n1 = schedule(x.w15, x.w10, x.w2, x.w1);
    let s2 = step(s1, 0x1e376c08, n1);
    let n2 = schedule(n0, x.w11, x.w3, x.w2);
    let s3 = step(s2, 0x2748774c, n2);
    let n3 = schedule(n1, x.w12, x.w4, x.w3);
    let s4 = step(s3, 0x34b0bcb5, n3);
    let n4 = schedule(n2, x.w13, x.w5, x.w4);
    let s5 = step(s4, 0x391c0cb3, n4);
    let n5 = schedule(n3, x.w14, x.w6, x.w5);
    let s6 = step(s5, 0x4ed8aa4a, n5);
    let n6 = schedule(n4, x.w15, x.w7, x.w6);
    let s7 = step(s6, 0x5b9cca4f, n6);
    let n7 = schedule(n5, n0, x.w8, x.w7);
    let s8 = step(s7, 0x682e6ff3, n7);
    let n8 = schedule(n6, n1, x.w9, x.w8);
    let s9 = step(s8, 0x748f82ee, n8);
    let n9 = schedule(n7, n2, x.w10, x.w9);
    let s10 = step(s9, 0x78a5636f, n9);
    let n10 = schedule(n8, n3, x.w11, x.w10);
    let s11 = step(s10, 0x84c87814, n10);
    let n11 = schedule(n9, n4, x.w12, x.w11);
    let s12 = step(s11, 0x8cc70208, n11);
    let n12 = schedule(n10, n5, x.w13, x.w12);
    let s13 = step(s12, 0x90befffa, n12);
    let n13 = schedule(n11, n6, x.w14, x.w13);
    let s14 = step(s13, 0xa4506ceb, n13);
    let n14 = schedule(n12, n7, x.w15, x.w14);
    let s15 = step(s14, 0xbef9a3f7, n14);
    let n15 = schedule(n13, n8, n0, x.w15);
    let s16 = step(s15, 0xc67178f2, n15);
    let y = Words {
        w0: n0,
        w1: n1,
        w2: n2,
        w3: n3,
        w4: n4,
        w5: n5,
        w6: n6,
        w7: n7,
        w8: n8,
        w9: n9,
        w10: n10,
        w11: n11,
        w12: n12,
        w13: n13,
        w14: n14,
        w15: n15,
    };
    Rolled { s: s16, x: y }
}

fn lane_rounds(s: State, x: Words) -> State
    ensures { result ≡ turns 0 64 s x }
{
    let r = lane3(lane2(lane1(Rolled {
        s: lane0(s, x),
        x: x,
    })));
    r.s
}

fn compress_lane(s: State, x: Words) -> State
    ensures { result ≡ folded s x }
{
    add_state(lane_rounds(s, x), s)
}

// The words of lane l.
fn words_in(x: &[u32; 136], l: usize) -> Words
    requires { l < 8 }
    ensures { result ≡ words_in x.now l }
{
    Words {
        w0: x[0 + l],
        w1: x[8 + l],
        w2: x[16 + l],
        w3: x[24 + l],
        w4: x[32 + l],
        w5: x[40 + l],
        w6: x[48 + l],
        w7: x[56 + l],
        w8: x[64 + l],
        w9: x[72 + l],
        w10: x[80 + l],
        w11: x[88 + l],
        w12: x[96 + l],
        w13: x[104 + l],
        w14: x[112 + l],
        w15: x[120 + l],
    }
}

// The hash value of lane l.
pub fn value_in(s: &[u32; 64], l: usize) -> State
    requires { l < 8 }
    ensures { result ≡ value_inside s.now l }
{
    State {
        a: s[0 + l],
        b: s[8 + l],
        c: s[16 + l],
        d: s[24 + l],
        e: s[32 + l],
        f: s[40 + l],
        g: s[48 + l],
        h: s[56 + l],
    }
}

// Lane l gets the hash value v.
pub fn put_value(s: &mut [u32; 64], l: usize, v: State)
    requires { l < 8 }
    ensures { s.new ≡ spread s.old l 0 (value_list v) }
{
    s[0 + l] = v.a;
    s[8 + l] = v.b;
    s[16 + l] = v.c;
    s[24 + l] = v.d;
    s[32 + l] = v.e;
    s[40 + l] = v.f;
    s[48 + l] = v.g;
    s[56 + l] = v.h;
}

// Lane l gets the words of a block.
pub fn put_words(x: &mut [u32; 136], l: usize, v: Words)
    requires { l < 8 }
    ensures { x.new ≡ spread x.old l 0 (word_list v) }
{
    x[0 + l] = v.w0;
    x[8 + l] = v.w1;
    x[16 + l] = v.w2;
    x[24 + l] = v.w3;
    x[32 + l] = v.w4;
    x[40 + l] = v.w5;
    x[48 + l] = v.w6;
    x[56 + l] = v.w7;
    x[64 + l] = v.w8;
    x[72 + l] = v.w9;
    x[80 + l] = v.w10;
    x[88 + l] = v.w11;
    x[96 + l] = v.w12;
    x[104 + l] = v.w13;
    x[112 + l] = v.w14;
    x[120 + l] = v.w15;
}

// The hash values after one block more of each of eight messages.
pub fn compress_eight(s: &[u32; 64], x: &[u32; 136]) -> [u32; 64]
    ensures { Compressed s.now x.now 8 result }
{
    let mut r = [0u32; 64];
    for l in 0..8 {
        let v = compress_lane(value_in(s, l), words_in(x, l));
        put_value(&mut r, l, v);
    }
    r
}
