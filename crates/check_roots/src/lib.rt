// A root among the other roots of its store, document 01, 'Sound': no other lives when it does.
#![tactic(auto)]

ghost use Rattle.std.specs.Prelude.{◌≡◌, true};
ghost use Rattle.local.specs.Test.{every, by_record};
ghost use Rattle.layout.specs.Stores.{store_in, slot_no, Has};
ghost use Rattle.check_kin.specs.Kin.{Keeps, lives_apart, clear_of};

use check_kin::{Kept, ends_before, later};
use lookup::holds_record;
use store::{count_at, retired_at, slot_count, slot_of, version_at};
use terms::Form;

// Whether two lives, each from a version to an end, have no kept version in common, or begin at one version.
fn lives_apart(oldest: u32, version: u32, ends: u64, other: u32, end: u64) -> bool
    ensures { result ≡ lives_apart oldest version ends other end }
{
    if other == version {
        return true;
    }
    if end <= later(oldest, version) as u64 {
        return true;
    }
    ends <= later(oldest, other) as u64
}

// Whether slot j holds no other root record that lives when the root of that version and end of life does: the cheap fields first.
fn root_apart(form: Form, store: &[u8], j: usize, kept: Kept, version: u32, ends: u64) -> bool
    requires { Has form store.now j × Keeps form store.now kept }
    ensures { result ≡ by_record true (clear_of (store_in form store.now) version ends) (slot_no form j store.now) }
{
    if count_at(form, store, j) != 0 {
        return true;
    }
    let end = ends_before(kept.latest, retired_at(form, store, j));
    if lives_apart(kept.oldest, version, ends, version_at(form, store, j), end) {
        return true;
    }
    !holds_record(slot_of(form, store, j))
}

// Whether no other root record lives when the root of that version and end of life does.
pub fn roots_apart(form: Form, store: &[u8], kept: Kept, version: u32, ends: u64) -> bool
    requires { Keeps form store.now kept }
    ensures { result ≡ every (by_record true (clear_of (store_in form store.now) version ends)) (store_in form store.now).slots }
{
    let n = slot_count(form, store);
    for j in 0..n {
        if !root_apart(form, store, j, kept, version, ends) {
            return false;
        }
    }
    true
}
