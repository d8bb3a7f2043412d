// Which bytes are one whole proof in form, no byte over: number of refusal 10 else. What the bytes hold is read where it lies:
//
//     presence proof   0 length, 4 kind, 6 step count, 8 key, 40 value, 72 steps of 33 bytes (side, sibling's hash)
//     absence proof    0 length, 4 kind, 6 flags, 8 key, 40 the neighbours' presence proofs
#![tactic(auto)]

ghost use Rattle.std.specs.Prelude.{◌≡◌, ◌≤◌, length, drop};
ghost use Rattle.proofrecords.specs.ProofBytes.{sides_right, is_presence, neighbours_fit, is_absence};
ghost use Rattle.proofrecords.specs.Steps.{Room};

use fields::{get_u16, get_u32};
use proofrecords::{
    ABSENCE_HEAD, ABSENCE_KIND, FLAGS_AT, KIND_AT, MOST_STEPS, PRESENCE_HEAD, PRESENCE_KIND,
    STEP_SIZE, STEPS_AT,
};

// Where the length of the left of two neighbours ends.
const LEFT_LENGTH_END: usize = ABSENCE_HEAD + 4;

// Whether each of the first n steps has side 0 or 1.
fn sides_right(p: &[u8], n: usize) -> bool
    requires { Room n p.now }
    ensures { result ≡ sides_right n (drop 72 p.now) }
{
    for i in 0..n {
        if 1 < p[PRESENCE_HEAD + STEP_SIZE * i] {
            return false;
        }
    }
    true
}

// Whether the bytes are a presence proof.
pub fn is_presence(p: &[u8]) -> bool
    ensures { result ≡ is_presence p.now }
{
    let n = p.len();
    if n < PRESENCE_HEAD {
        return false;
    }
    if get_u32(p, 0) as usize != n {
        return false;
    }
    if get_u16(p, KIND_AT) != PRESENCE_KIND {
        return false;
    }
    let steps = get_u16(p, STEPS_AT) as usize;
    if MOST_STEPS < steps {
        return false;
    }
    if n != PRESENCE_HEAD + STEP_SIZE * steps {
        return false;
    }
    sides_right(p, steps)
}

// Whether what follows the head of an absence proof are the neighbours that its flags say. Each is read where it lies.
fn neighbours_fit(p: &[u8]) -> bool
    requires { 40 ≤ length p.now }
    ensures { result ≡ neighbours_fit p.now }
{
    let n = p.len();
    if get_u16(p, FLAGS_AT) <= 2 {
        return is_presence(&p[ABSENCE_HEAD..n]);
    }
    if n < LEFT_LENGTH_END {
        return false;
    }
    let e = ABSENCE_HEAD + get_u32(p, ABSENCE_HEAD) as usize;
    if n < e {
        return false;
    }
    if !is_presence(&p[ABSENCE_HEAD..e]) {
        return false;
    }
    is_presence(&p[e..n])
}

// Whether the bytes are an absence proof.
pub fn is_absence(p: &[u8]) -> bool
    ensures { result ≡ is_absence p.now }
{
    let n = p.len();
    if n < ABSENCE_HEAD {
        return false;
    }
    if get_u32(p, 0) as usize != n {
        return false;
    }
    if get_u16(p, KIND_AT) != ABSENCE_KIND {
        return false;
    }
    let flags = get_u16(p, FLAGS_AT);
    if flags == 0 {
        return false;
    }
    if 3 < flags {
        return false;
    }
    neighbours_fit(p)
}
