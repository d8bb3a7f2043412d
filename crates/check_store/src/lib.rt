// Checking a store, document 01, 'Sound': a check in few passes over the slots says that all is fine or names a suspect, and the exact test of
// the suspect decides. Each record is looked at by itself, and no version is tried.
#![tactic(auto)]

ghost use Rattle.std.specs.Prelude.{◌≡◌};
ghost use Rattle.local.specs.Test.{slots_test};
ghost use Rattle.nodehash.specs.Node.{leaf_hash, inner_hash};
ghost use Rattle.layout.specs.Stores.{store_in};
ghost use Rattle.check_kin.specs.Kin.{Keeps};
ghost use Rattle.promises.specs.Check.{Checked};
ghost use Rattle.refusal_numbers.specs.Refusals.{number_told};

use check_kin::Kept;
use check_quick::{quick, quick_with};
use check_slot::{each_passes, slot_passes};
use header::{Header, read_header};
use refusal_numbers::Refusal;
use store::slot_count;
use terms::Form;

// Whether each slot passes, where slot i is suspect: the exact test of it decides, or where it passes, that of each.
fn suspect_passes(form: Form, store: &[u8], kept: Kept, i: usize) -> bool
    requires { Keeps form store.now kept }
    ensures { result ≡ slots_test leaf_hash inner_hash (store_in form store.now) }
{
    let n = slot_count(form, store);
    if n <= i {
        return each_passes(form, store, kept);
    }
    if !slot_passes(form, store, i, kept) {
        return false;
    }
    each_passes(form, store, kept)
}

// Whether each slot passes.
fn slots_pass(form: Form, store: &[u8], kept: Kept) -> bool
    requires { Keeps form store.now kept }
    ensures { result ≡ slots_test leaf_hash inner_hash (store_in form store.now) }
{
    match quick(form, store, kept) {
        None => true,
        Some(i) => suspect_passes(form, store, kept, i),
    }
}

// Whether any bytes are a sound store.
pub fn check(form: Form, store: &[u8]) -> Result<(), Refusal>
    ensures { Checked form store.now (number_told result) }
{
    let Header { oldest, latest, .. } = read_header(form, store)?;
    let kept = Kept { oldest, latest };
    if !slots_pass(form, store, kept) {
        return Err(Refusal::NotSound);
    }
    Ok(())
}

// The same, and where it is accepted check's guesses of the slots of the children that records name are left in the caller's room; nothing is promised of them.
pub fn check_with(form: Form, store: &[u8], guess: &mut [u16; 32768]) -> Result<(), Refusal>
    ensures { Checked form store.now (number_told result) }
{
    let Header { oldest, latest, .. } = read_header(form, store)?;
    let versions = Kept { oldest, latest };
    if quick_with(form, store, versions, guess).is_some() {
        return check(form, store);
    }
    Ok(())
}
