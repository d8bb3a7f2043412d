// Many proofs checked in one call: each by its form, then all their paths side by side, then the answers of the single calls in a row.
#![tactic(auto)]

ghost use Rattle.std.specs.Prelude.{◌≡◌, true, ◌++◌, ◌*◌, ◌<◌, ◌≤◌, length, drop};
ghost use Rattle.meaning.specs.Answers.{number_of};
ghost use Rattle.palette_rules.specs.Palette.{keys_from};
ghost use Rattle.hash.specs.Hash.{hash_bytes};
ghost use Rattle.verify_rules.specs.Reading.{verified};
ghost use Rattle.verify.specs.Says.{says};
ghost use Rattle.verify_given.specs.Given.{Leading};
ghost use Rattle.verify_rows.specs.Rows.{answer_bytes, VerifiesMany};
ghost use Rattle.verify_rows.specs.Reading.{cuts_into, pieces, answers_of};
ghost use Rattle.verify_cut.specs.Row.{Known};

use fields::clear;
use hash::{Hash, hash_at};
use key_list::{KEY_SIZE, whole_keys};
use refusal_numbers::Refusal;
use verify_cut::{gather, piece_end, put_refusal, put_value};
use verify_given::verify_given;
use verify_lanes::lead_many;

// The bytes of an answer: its number, and the 33 bytes of what is found.
const ANSWER_SIZE: usize = 34;

// Writes an answer in 34 bytes.
fn put_answer(out: &mut [u8], answer: Result<Option<Hash>, Refusal>)
    requires { (length out.old ≡ 34) × (number_of (says answer) < 256) }
    ensures { out.new ≡ answer_bytes (says answer) }
{
    match answer {
        Err(refusal) => put_refusal(out, refusal.number()),
        Ok(Some(hash)) => put_value(out, hash),
        Ok(None) => clear(out),
    }
}

// Writes the answer of one key and its proof, where it is known which paths lead to the root.
fn answer_one(root: Hash, g: bool, h: bool, key: &[u8], x: &[u8], out: &mut [u8])
    requires { (length key.now ≡ 32) × (length out.old ≡ 34) × Leading (hash_bytes root) x.now g h }
    ensures { out.new ≡ answer_bytes (verified (hash_bytes root) key.now x.now) }
{
    put_answer(out, verify_given(root, g, h, key, x));
}

// Writes the answers of n keys and records.
fn put_answers(
    root: Hash,
    keys: &[u8],
    p: &[u8],
    n: usize,
    index: &[usize; 256],
    good: &[bool; 512],
    out: &mut [u8],
)
    requires { (n ≤ 256) × (length keys.now ≡ 32 * n) × (34 * n ≤ length out.old) × (cuts_into n p.now ≡ true) × Known (hash_bytes root) p.now n index.now good.now }
    ensures { out.new ≡ answers_of (hash_bytes root) (keys_from n keys.now) (pieces n p.now) ++ drop (34 * n) out.old }
{
    let mut a = 0;
    for i in 0..n {
        // The bytes are n records, so one begins here.
        let e = piece_end(p, a).unwrap();
        let d = index[i];
        let k = KEY_SIZE * i;
        let f = k + KEY_SIZE;
        let o = ANSWER_SIZE * i;
        let q = o + ANSWER_SIZE;
        answer_one(
            root,
            good[d],
            good[d + 1],
            &keys[k..f],
            &p[a..e],
            &mut out[o..q],
        );
        a = e;
    }
}

// The check of many proofs for callers in other languages: 0 where it is accepted, with 34 bytes for each key at the front of `answers`; else
// the number of refusal, with `answers` as it was.
pub fn grants_verify_many(root: &[u8], keys: &[u8], proofs: &[u8], answers: &mut [u8]) -> u32
    ensures { VerifiesMany root.now keys.now proofs.now answers.old result answers.new }
{
    if root.len() != 32 {
        return Refusal::Not32Bytes.number();
    }
    if !whole_keys(keys) {
        return Refusal::Not32Bytes.number();
    }
    let n = keys.len() / KEY_SIZE;
    let mut at = [0usize; 512];
    let mut index = [0usize; 256];
    let Some(paths) = gather(proofs, n, &mut at, &mut index) else {
        return Refusal::NotInForm.number();
    };
    if answers.len() < ANSWER_SIZE * n {
        return Refusal::NoRoom.number();
    }
    let top = hash_at(root, 0);
    let mut good = [false; 512];
    lead_many(top, proofs, &at, paths, &mut good);
    put_answers(top, keys, proofs, n, &index, &good, answers);
    0
}
