// The last pass of the check: whether what the parents of each record add up to covers its kept life.
#![tactic(auto)]

ghost use Rattle.layout.specs.Stores.{Has};
ghost use Rattle.check_kin.specs.Kin.{Keeps};
ghost use Rattle.check_pass.specs.Passes.{Passed, Each};
ghost use Rattle.check_cover.specs.Cover.{CoveredBy, CoveredAt};

use check_kin::{Kept, ends_before, kept_life};
use store::{count_at, retired_at, slot_count, version_at};
use terms::Form;

// Whether the kept life of slot i is at most a sum; a root needs none.
fn slot_covered(form: Form, store: &[u8], kept: Kept, i: usize, sum: u32) -> bool
    requires { Has form store.now i × Keeps form store.now kept }
    ensures { Passed result (CoveredBy form store.now sum i) }
{
    if count_at(form, store, i) == 0 {
        return true;
    }
    let ends = ends_before(kept.latest, retired_at(form, store, i));
    kept_life(kept.oldest, version_at(form, store, i), ends) <= sum as u64
}

// How many slots, from the first on, have a kept life of at most their sum.
pub fn covered(form: Form, store: &[u8], kept: Kept, sums: &[u32; 16384]) -> usize
    requires { Keeps form store.now kept }
    ensures { Each (CoveredAt form store.now sums.now) result }
{
    let n = slot_count(form, store);
    for i in 0..n {
        if !slot_covered(form, store, kept, i, sums[i]) {
            return i;
        }
    }
    n
}
