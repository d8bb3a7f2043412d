// Whether the neighbours of an absence proof show that its key is absent, document 01, 'Checking'. Each is read where it lies in the proof. Who judges
// them is told whether their paths lead to the root, and hashes nothing: the root is handed on for the contracts alone. So one path after the other may
// be walked here, or many side by side elsewhere.
#![tactic(auto)]

ghost use Rattle.std.specs.Prelude.{◌≡◌, true};
ghost use Rattle.meaning.specs.Proving.{beyond};
ghost use Rattle.hash.specs.Hash.{hash_bytes};
ghost use Rattle.proofrecords.specs.ProofBytes.{is_presence, is_absence};
ghost use Rattle.verify_neighbours.specs.Neighbours.{leads, neighbour, lone_neighbour, both_neighbours, neighbours};
ghost use Rattle.verify_neighbours.specs.Around.{Around};

use fields::{get_u16, get_u32};
use hash::{Hash, same_hash};
use place::before;
use proofrecords::{ABSENCE_HEAD, FLAGS_AT, KEY_AT, STEPS_AT, VALUE_AT};
use verify_path::{outermost, paths_part, top};

// Whether the steps of a presence proof lead from the leaf hash to the root.
pub fn leads_to(root: Hash, p: &[u8]) -> bool
    requires { is_presence p.now ≡ true }
    ensures { result ≡ leads (hash_bytes root) p.now }
{
    let n = get_u16(p, STEPS_AT) as usize;
    same_hash(top(p, n), root)
}

// Whether the paths of the neighbours lead to the root: the only one, or the left one and the right one.
#[derive(Clone, Copy)]
pub struct Led {
    pub first: bool,
    pub second: bool,
}

// The second path is walked only where the first leads to the root.
pub fn lead_around(root: Hash, proof: &[u8]) -> Led
    requires { is_absence proof.now ≡ true }
    ensures { Around (hash_bytes root) proof.now result.first result.second }
{
    let n = proof.len();
    if get_u16(proof, FLAGS_AT) <= 2 {
        let lone = leads_to(root, &proof[ABSENCE_HEAD..n]);
        return Led {
            first: lone,
            second: false,
        };
    }
    let e = ABSENCE_HEAD + get_u32(proof, ABSENCE_HEAD) as usize;
    if !leads_to(root, &proof[ABSENCE_HEAD..e]) {
        return Led {
            first: false,
            second: false,
        };
    }
    let right = leads_to(root, &proof[e..n]);
    Led {
        first: true,
        second: right,
    }
}

// Whether a key is on a side of another: smaller on the left, greater on the right.
fn beyond(side: bool, x: &[u8], key: &[u8]) -> bool
    ensures { result ≡ beyond side x.now key.now }
{
    if side {
        return before(key, x);
    }
    before(x, key)
}

// Whether a neighbour's proof leads to the root and its key is on its side of the key.
fn neighbour_holds(side: bool, root: Hash, good: bool, key: &[u8], p: &[u8]) -> bool
    requires p_value { is_presence p.now ≡ true }
    requires good_value { good ≡ leads (hash_bytes root) p.now }
    ensures { result ≡ neighbour side (hash_bytes root) key.now p.now }
{
    if !good {
        return false;
    }
    beyond(side, &p[KEY_AT..VALUE_AT], key)
}

// Whether a neighbour that is the only one holds: its path is outermost on the key's side.
fn lone_holds(side: bool, root: Hash, good: bool, key: &[u8], p: &[u8]) -> bool
    requires p_value { is_presence p.now ≡ true }
    requires good_value { good ≡ leads (hash_bytes root) p.now }
    ensures { result ≡ lone_neighbour side (hash_bytes root) key.now p.now }
{
    if !neighbour_holds(side, root, good, key, p) {
        return false;
    }
    let n = get_u16(p, STEPS_AT) as usize;
    outermost(!side, p, n)
}

// Whether two neighbours hold: each by itself, and their paths part around the key.
fn both_hold(root: Hash, g: bool, h: bool, key: &[u8], l: &[u8], r: &[u8]) -> bool
    requires l_value { is_presence l.now ≡ true }
    requires r_value { is_presence r.now ≡ true }
    requires g_value { g ≡ leads (hash_bytes root) l.now }
    requires h_value { g ≡ true → h ≡ leads (hash_bytes root) r.now }
    ensures { result ≡ both_neighbours (hash_bytes root) key.now l.now r.now }
{
    if !neighbour_holds(false, root, g, key, l) {
        return false;
    }
    if !neighbour_holds(true, root, h, key, r) {
        return false;
    }
    let m = get_u16(l, STEPS_AT) as usize;
    let n = get_u16(r, STEPS_AT) as usize;
    paths_part(l, m, r, n)
}

// Whether the neighbours of an absence proof show that the key is absent. Each is read where it lies in the proof.
pub fn neighbours_hold(root: Hash, g: bool, h: bool, key: &[u8], proof: &[u8]) -> bool
    requires proof_value { is_absence proof.now ≡ true }
    requires around { Around (hash_bytes root) proof.now g h }
    ensures { result ≡ neighbours (hash_bytes root) key.now proof.now }
{
    let n = proof.len();
    let flags = get_u16(proof, FLAGS_AT);
    if flags == 1 {
        return lone_holds(false, root, g, key, &proof[ABSENCE_HEAD..n]);
    }
    if flags == 2 {
        return lone_holds(true, root, g, key, &proof[ABSENCE_HEAD..n]);
    }
    let e = ABSENCE_HEAD + get_u32(proof, ABSENCE_HEAD) as usize;
    both_hold(root, g, h, key, &proof[ABSENCE_HEAD..e], &proof[e..n])
}
