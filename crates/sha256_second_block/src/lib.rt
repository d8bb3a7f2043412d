// SHA-256's compression of the second block of a node's message, request 2026-06. Its rounds are functions of their own, each with one
// caller, so that the compiler makes one straight run of them and sees which words are known.
#![tactic(auto)]

ghost use Rattle.std.specs.Prelude.{◌≡◌};
ghost use Rattle.sha256.specs.Rolling.{rolls, turns, folded};
ghost use Rattle.sha256_second_start.specs.Second.{second_block};

use sha256::{Rolled, State, Words, add_state, schedule, step};
use sha256_second_start::{second0, second1};

fn second2(q: Rolled) -> Rolled
    ensures { (result.x ≡ rolls 16 q.x) × (result.s ≡ turns 32 16 q.s result.x) }
{
    let s = q.s;
    let x = q.x;
    let n0 = schedule(x.w14, x.w9, x.w1, x.w0);
    let s1 = step(s, 0x27b70a85, n0);
    let n1 = schedule(x.w15, x.w10, x.w2, x.w1);
    let s2 = step(s1, 0x2e1b2138, n1);
    let n2 = schedule(n0, x.w11, x.w3, x.w2);
    let s3 = step(s2, 0x4d2c6dfc, n2);
    let n3 = schedule(n1, x.w12, x.w4, x.w3);
    let s4 = step(s3, 0x53380d13, n3);
    let n4 = schedule(n2, x.w13, x.w5, x.w4);
    let s5 = step(s4, 0x650a7354, n4);
    let n5 = schedule(n3, x.w14, x.w6, x.w5);
    let s6 = step(s5, 0x766a0abb, n5);
    let n6 = schedule(n4, x.w15, x.w7, x.w6);
    let s7 = step(s6, 0x81c2c92e, n6);
    let n7 = schedule(n5, n0, x.w8, x.w7);
    let s8 = step(s7, 0x92722c85, n7);
    let n8 = schedule(n6, n1, x.w9, x.w8);
    let s9 = step(s8, 0xa2bfe8a1, n8);
    let n9 = schedule(n7, n2, x.w10, x.w9);
    let s10 = step(s9, 0xa81a664b, n9);
    let n10 = schedule(n8, n3, x.w11, x.w10);
    let s11 = step(s10, 0xc24b8b70, n10);
    let n11 = schedule(n9, n4, x.w12, x.w11);
    let s12 = step(s11, 0xc76c51a3, n11);
    let n12 = schedule(n10, n5, x.w13, x.w12);
    let s13 = step(s12, 0xd192e819, n12);
    let n13 = schedule(n11, n6, x.w14, x.w13);
    let s14 = step(s13, 0xd6990624, n13);
    let n14 = schedule(n12, n7, x.w15, x.w14);
    let s15 = step(s14, 0xf40e3585, n14);
    let n15 = schedule(n13, n8, n0, x.w15);
    let s16 = step(s15, 0x106aa070, n15);
    let y = Words {
        w0: n0,
        w1: n1,
        w2: n2,
        w3: n3,
        w4: n4,
        w5: n5,
        w6: n6,
        w7: n7,
        w8: n8,
        w9: n9,
        w10: n10,
        w11: n11,
        w12: n12,
        w13: n13,
        w14: n14,
        w15: n15,
    };
    Rolled { s: s16, x: y }
}

fn second3(q: Rolled) -> Rolled
    ensures { (result.x ≡ rolls 16 q.x) × (result.s ≡ turns 48 16 q.s result.x) }
{
    let s = q.s;
    let x = q.x;
    let n0 = schedule(x.w14, x.w9, x.w1, x.w0);
    let s1 = step(s, 0x19a4c116, n0);
    let n1 = schedule(x.w15, x.w10, x.w2, x.w1);
    let s2 = step(s1, 0x1e376c08, n1);
    let n2 = schedule(n0, x.w11, x.w3, x.w2);
    let s3 = step(s2, 0x2748774c, n2);
    let n3 = schedule(n1, x.w12, x.w4, x.w3);
    let s4 = step(s3, 0x34b0bcb5, n3);
    let n4 = schedule(n2, x.w13, x.w5, x.w4);
    let s5 = step(s4, 0x391c0cb3, n4);
    let n5 = schedule(n3, x.w14, x.w6, x.w5);
    let s6 = step(s5, 0x4ed8aa4a, n5);
    let n6 = schedule(n4, x.w15, x.w7, x.w6);
    let s7 = step(s6, 0x5b9cca4f, n6);
    let n7 = schedule(n5, n0, x.w8, x.w7);
    let s8 = step(s7, 0x682e6ff3, n7);
    let n8 = schedule(n6, n1, x.w9, x.w8);
    let s9 = step(s8, 0x748f82ee, n8);
    let n9 = schedule(n7, n2, x.w10, x.w9);
    let s10 = step(s9, 0x78a5636f, n9);
    let n10 = schedule(n8, n3, x.w11, x.w10);
    let s11 = step(s10, 0x84c87814, n10);
    let n11 = schedule(n9, n4, x.w12, x.w11);
    let s12 = step(s11, 0x8cc70208, n11);
    let n12 = schedule(n10, n5, x.w13, x.w12);
    let s13 = step(s12, 0x90befffa, n12);
    let n13 = schedule(n11, n6, x.w14, x.w13);
    let s14 = step(s13, 0xa4506ceb, n13);
    let n14 = schedule(n12, n7, x.w15, x.w14);
    let s15 = step(s14, 0xbef9a3f7, n14);
    let n15 = schedule(n13, n8, n0, x.w15);
    let s16 = step(s15, 0xc67178f2, n15);
    let y = Words {
        w0: n0,
        w1: n1,
        w2: n2,
        w3: n3,
        w4: n4,
        w5: n5,
        w6: n6,
        w7: n7,
        w8: n8,
        w9: n9,
        w10: n10,
        w11: n11,
        w12: n12,
        w13: n13,
        w14: n14,
        w15: n15,
    };
    Rolled { s: s16, x: y }
}

// The hash value after the second block, whose first word is w.
pub fn compress_second(s: State, w: u32) -> State
    ensures { result ≡ folded s (second_block w) }
{
    let r = second3(second2(second1(second0(s, w), w)));
    add_state(r.s, s)
}
