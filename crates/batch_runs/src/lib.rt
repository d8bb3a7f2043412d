// The order of a batch, and the runs of it that go to the left and the right child.
#![tactic(auto)]

ghost use Rattle.std.specs.Prelude.{◌≡◌, true, false, ◌≤◌};
ghost use Rattle.meaning.specs.Calls.{ascending};
ghost use Rattle.batch.specs.Batch.{count, asks};
ghost use Rattle.batch.specs.Runs.{RunAt, lefts, run_of};

use batch::{RECORD_SIZE, key};
use place::{before, key_bit};

// Whether the keys of a batch are strictly ascending.
pub fn batch_order(b: &[u8]) -> bool
    ensures { result ≡ ascending (asks b.now) }
{
    let n = b.len() / RECORD_SIZE;
    for i in 1..n {
        let x = key(b, i - 1);
        let y = key(b, i);
        if !before(x, y) {
            return false;
        }
    }
    true
}

// How many records of a run go left at bit i, by halving: those that go right come after them.
fn cut(run: &[u8], i: usize) -> usize
    requires { RunAt i run.now }
    ensures { (result ≡ lefts i run.now) × (result ≤ count run.now) }
{
    let mut low = 0;
    let mut high = run.len() / RECORD_SIZE;
    // Halving, which is no count.
    while low < high {
        let middle = low + (high - low) / 2;
        if key_bit(key(run, middle), i) {
            high = middle;
        } else {
            low = middle + 1;
        }
    }
    low
}

// The part of a run whose keys go left at bit i.
pub fn left_run(run: &[u8], i: usize) -> &[u8]
    requires { RunAt i run.now }
    ensures { result.now ≡ run_of false i run.now }
{
    let end = RECORD_SIZE * cut(run, i);
    &run[0..end]
}

// The part of a run whose keys go right at bit i.
pub fn right_run(run: &[u8], i: usize) -> &[u8]
    requires { RunAt i run.now }
    ensures { result.now ≡ run_of true i run.now }
{
    let at = RECORD_SIZE * cut(run, i);
    &run[at..]
}
