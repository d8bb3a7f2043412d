// The passes of the check for a test and a bench to link (tests/passes); the library has nothing of this.
#![tactic(auto)]

ghost use Rattle.std.specs.Prelude.{◌≡◌, true, length};
ghost use Rattle.layout.specs.Headers.{size_right};
ghost use Rattle.check_kin.specs.Kin.{Keeps};

use check_kin::Kept;
use check_quick::quick;
use check_slot::slot_passes;
use check_store::check;
use header::{Header, read_header};
use header_form::size_right;
use nodehash::leaf_hash;
use refusal_numbers::number_told;
use slots::grant_of;
use store::{kind_at, slot_count, slot_of};
use terms::Form;

const FINE: u32 = 0;

const SUSPECT_FAILS: u32 = 1;

const SUSPECT_PASSES: u32 = 2;

const NO_STORE: u32 = 3;

// The check itself.
#[unsafe(no_mangle)]
pub extern "C" fn check_store(store: &[u8]) -> u32 {
    number_told(check(Form::Counted, store))
}

// What came of the passes over the slots of a store that keeps these versions.
fn suspected(store: &[u8], kept: Kept) -> u32
    requires { Keeps Form.Counted store.now kept }
{
    let n = slot_count(Form::Counted, store);
    match quick(Form::Counted, store, kept) {
        None => FINE,
        Some(i) => {
            if n <= i {
                return SUSPECT_PASSES;
            }
            if slot_passes(Form::Counted, store, i, kept) {
                return SUSPECT_PASSES;
            }
            SUSPECT_FAILS
        }
    }
}

// 0 where the passes find nothing wrong, 1 where they name a slot that fails the exact test, 2 where it passes that or isn't there, 3 where
// size or header are refused.
#[unsafe(no_mangle)]
pub extern "C" fn check_suspect(store: &[u8]) -> u32 {
    let header = read_header(Form::Counted, store);
    match header {
        Err(_) => NO_STORE,
        Ok(Header { oldest, latest, .. }) => suspected(store, Kept { oldest, latest }),
    }
}

// A number that the hash of each used slot has a part in: one node hash for each.
fn hashed(store: &[u8]) -> u32
    requires { size_right Form.Counted (length store.now) ≡ true }
{
    let n = slot_count(Form::Counted, store);
    let mut odd = 0u32;
    for i in 0..n {
        if kind_at(Form::Counted, store, i) != 0 {
            let h = leaf_hash(grant_of(slot_of(Form::Counted, store, i)));
            odd = odd.wrapping_add((h.a % 2) as u32);
        }
    }
    odd
}

// The same of any bytes: the time of hashing the records of a store once.
#[unsafe(no_mangle)]
pub extern "C" fn check_hashes(store: &[u8]) -> u32 {
    if !size_right(Form::Counted, store.len()) {
        return 0;
    }
    hashed(store)
}
