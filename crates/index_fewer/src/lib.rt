// A guess at the right table from the one before a prune: the entries that name free slots are taken out. Nothing is promised of a guess but that it is made;
// who uses it looks at what it gives.
#![tactic(auto)]

ghost use Rattle.std.specs.Prelude.{◌≡◌, ◌≤◌, ◌<◌, ◌+◌, length};
ghost use Rattle.check_pass.specs.Passes.{Room};

use store::kind_at;
use terms::Form;

// Entry k moved down to the first `kept`, if the slot it names isn't free; answers how many entries there are then.
fn moved_down(store: &[u8], n: usize, table: &mut [u32], kept: usize, k: usize) -> usize
    requires { Room Form.Counted store.now n × (length table.old ≡ n) × (kept ≤ k) × (k < n) }
    ensures { result ≤ k + 1 }
{
    let x = table[k];
    let i = x as usize;
    if n <= i {
        return kept;
    }
    if kind_at(Form::Counted, store, i) == 0 {
        return kept;
    }
    table[kept] = x;
    kept + 1
}

// The entries that name free slots taken out.
pub fn fewer(store: &[u8], n: usize, table: &mut [u32])
    requires { Room Form.Counted store.now n × (n ≤ 16384) × (length table.old ≡ n) }
{
    let mut kept = 0;
    for k in 0..n {
        kept = moved_down(store, n, table, kept, k);
    }
    table[kept..].fill(n as u32);
}
