// Finding the root of a version in lent memory, document 02, 2026-13: the root record whose lifetime covers it.
#![tactic(auto)]

ghost use Rattle.std.specs.Prelude.{◌≡◌, true, length};
ghost use Rattle.layout.specs.Headers.{size_right};
ghost use Rattle.layout.specs.Stores.{store_in, slot_no, Has};
ghost use Rattle.lookup_root.specs.Roots.{root_here, RootIn};

use lifetime::covers;
use lookup::holds_record;
use store::{count_at, retired_at, slot_count, slot_of, version_at};
use terms::Form;

// Whether slot i holds a root record whose lifetime covers a version: the cheap fields first.
fn root_here(form: Form, store: &[u8], i: usize, version: u32) -> bool
    requires { Has form store.now i }
    ensures { result ≡ root_here version (slot_no form i store.now) }
{
    if count_at(form, store, i) != 0 {
        return false;
    }
    if !covers(
        version_at(form, store, i),
        retired_at(form, store, i),
        version,
    ) {
        return false;
    }
    holds_record(slot_of(form, store, i))
}

// The root of a version: the lowest slot with a root record whose lifetime covers it.
pub fn find_root(form: Form, store: &[u8], version: u32) -> Option<usize>
    requires { size_right form (length store.now) ≡ true }
    ensures { RootIn (store_in form store.now) version result }
{
    let n = slot_count(form, store);
    for j in 0..n {
        if root_here(form, store, j, version) {
            return Some(j);
        }
    }
    None
}
