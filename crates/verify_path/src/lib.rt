// The path of a presence proof: its steps, read where they lie in its bytes; where they lead, whether they are outermost, and whether two paths
// part around a gap.
#![tactic(auto)]

ghost use Rattle.std.specs.Prelude.{◌≡◌, suc};
ghost use Rattle.meaning.specs.Checking.{keeps_to, outermost, same_step, paths_part, parent_hash};
ghost use Rattle.hash.specs.Hash.{hash_bytes};
ghost use Rattle.nodehash.specs.Node.{leaf_hash, inner_hash};
ghost use Rattle.proofrecords.specs.Steps.{Room, step_at, first_steps};
ghost use Rattle.verify_path.specs.Paths.{step_of, top_after, apart_at};

use hash::{Hash, hash_at, is_zero};
use nodehash::{inner_hash, leaf_hash};
use proofrecords::{KEY_AT, PRESENCE_HEAD, STEP_SIZE};

// A step: whether its node is the right child, and the sibling's hash.
#[derive(Clone, Copy, PartialEq, Eq)]
struct Step {
    right: bool,
    sibling: Hash,
}

// Whether the node of step i is the right child.
pub fn is_right(p: &[u8], i: usize) -> bool
    requires { Room (suc i) p.now }
    ensures { result ≡ (step_at i p.now).side }
{
    let at = PRESENCE_HEAD + STEP_SIZE * i;
    p[at] == 1
}

// The sibling's hash in step i.
pub fn sibling(p: &[u8], i: usize) -> Hash
    requires { Room (suc i) p.now }
    ensures { hash_bytes result ≡ (step_at i p.now).sibling }
{
    hash_at(p, PRESENCE_HEAD + STEP_SIZE * i + 1)
}

// Step i.
fn step_at(p: &[u8], i: usize) -> Step
    requires { Room (suc i) p.now }
    ensures { step_of result ≡ step_at i p.now }
{
    Step {
        right: is_right(p, i),
        sibling: sibling(p, i),
    }
}

// The hash of the parent that step i leads to, from a node with hash h.
fn parent(p: &[u8], i: usize, h: Hash) -> Hash
    requires { Room (suc i) p.now }
    ensures { hash_bytes result ≡ parent_hash leaf_hash inner_hash (hash_bytes h) (step_at i p.now) }
{
    let s = sibling(p, i);
    if is_right(p, i) {
        return inner_hash(s, h);
    }
    inner_hash(h, s)
}

// The hash that the first n steps lead to from the leaf.
pub fn top(p: &[u8], n: usize) -> Hash
    requires { Room n p.now }
    ensures { hash_bytes result ≡ top_after n p.now }
{
    let mut h = leaf_hash(&p[KEY_AT..PRESENCE_HEAD]);
    for i in 0..n {
        h = parent(p, i, h);
    }
    h
}

// Whether step i keeps to a side: it has that side, or a zero sibling.
fn keeps_to(side: bool, p: &[u8], i: usize) -> bool
    requires { Room (suc i) p.now }
    ensures { result ≡ keeps_to side (step_at i p.now) }
{
    if is_right(p, i) == side {
        return true;
    }
    is_zero(sibling(p, i))
}

// Whether each of the first n steps keeps to a side.
pub fn outermost(side: bool, p: &[u8], n: usize) -> bool
    requires { Room n p.now }
    ensures { result ≡ outermost side (first_steps n p.now) }
{
    for i in 0..n {
        if !keeps_to(side, p, i) {
            return false;
        }
    }
    true
}

// Whether step i of one proof and step j of another are equal in side and sibling.
fn same_step(l: &[u8], i: usize, r: &[u8], j: usize) -> bool
    requires room { Room (suc i) l.now }
    requires room_2 { Room (suc j) r.now }
    ensures { result ≡ same_step (step_at i l.now) (step_at j r.now) }
{
    step_at(l, i) == step_at(r, j)
}

// Whether the two paths go apart at steps i and j, to the left and to the right, and keep to the gap below.
fn apart(l: &[u8], i: usize, r: &[u8], j: usize) -> bool
    requires room { Room (suc i) l.now }
    requires room_2 { Room (suc j) r.now }
    ensures { result ≡ apart_at i l.now j r.now }
{
    if is_right(l, i) {
        return false;
    }
    if !is_right(r, j) {
        return false;
    }
    if !outermost(true, l, i) {
        return false;
    }
    outermost(false, r, j)
}

// Whether the first m steps of the left neighbour's path and the first n of the right one's part around a gap. The tops are the last steps.
pub fn paths_part(l: &[u8], m: usize, r: &[u8], n: usize) -> bool
    requires room { Room m l.now }
    requires room_2 { Room n r.now }
    ensures { result ≡ paths_part (first_steps m l.now) (first_steps n r.now) }
{
    for k in 0..m.min(n) {
        let i = m - k - 1;
        let j = n - k - 1;
        if !same_step(l, i, r, j) {
            return apart(l, i, r, j);
        }
    }
    false
}
