// The check in few passes over the slots: own fields, order, links, lives. Each pass answers a slot to look at, or
// none where all is fine. Only that all is fine is promised; a slot that it names is a suspect, and the exact test
// decides.
#![tactic(auto)]

ghost use Rattle.std.specs.Prelude.{◌≡◌, true, ◌<◌};
ghost use Rattle.local.specs.Test.{slots_test};
ghost use Rattle.nodehash.specs.Node.{leaf_hash, inner_hash};
ghost use Rattle.layout.specs.Stores.{store_in, Has};
ghost use Rattle.check_kin.specs.Kin.{Keeps};
ghost use Rattle.check_child.specs.Child.{Ready};
ghost use Rattle.check_quick.specs.Look.{Sure, Alone, Linked};

use check_ahead::hash_ahead;
use check_cover::covered;
use check_guess::guessed;
use check_kin::Kept;
use check_order::{ascending, named};
use check_own::own_right;
use check_slot::slot_passes;
use check_sort::{rank, sort};
use check_tie::tie_all;
use store::{slot_count, wide};
use terms::Form;

// The slots in order: none where no two records share their node and no two roots live together, else a slot to
// look at.
fn in_order(
    form: Form,
    store: &[u8],
    kept: Kept,
    order: &[u16],
    ranks: &[u16; 16384],
) -> Option<usize>
    requires { Ready form store.now kept }
    ensures { Sure result (Alone (store_in form store.now)) }
{
    let n = slot_count(form, store);
    let up = ascending(form, store, kept.latest, order);
    if up < order.len() {
        return Some(wide(order[up]));
    }
    let i = named(form, store, order, ranks);
    if i < n {
        return Some(i);
    }
    None
}

// The same, the slots put in order first; and a guess at the slots of the children that they name.
fn alone(form: Form, store: &[u8], kept: Kept, guess: &mut [u16; 32768]) -> Option<usize>
    requires { Ready form store.now kept }
    ensures { Sure result (Alone (store_in form store.now)) }
{
    let n = slot_count(form, store);
    let mut table = [0u16; 16384];
    let mut ranks = [0u16; 16384];
    let many = sort(form, store, n, &mut table, &mut ranks);
    let order = &table[..many];
    rank(order, &mut ranks);
    guessed(form, store, n, order, guess);
    in_order(form, store, kept, order, &ranks)
}

// Of a slot whose links are not right, the slot that fails the exact test: itself, or what was guessed for its children.
fn suspect(form: Form, store: &[u8], kept: Kept, j: usize, a: usize, b: usize) -> usize
    requires { Has form store.now j × Keeps form store.now kept }
{
    let n = slot_count(form, store);
    if !slot_passes(form, store, j, kept) {
        return j;
    }
    if a < n {
        if !slot_passes(form, store, a, kept) {
            return a;
        }
    }
    b
}

// None where each record is tied to the children that it names and its life is covered by its parents, else a slot
// to look at.
fn linked(form: Form, store: &[u8], kept: Kept, guess: &[u16; 32768]) -> Option<usize>
    requires { Ready form store.now kept }
    ensures { Sure result (Linked leaf_hash inner_hash (store_in form store.now)) }
{
    let n = slot_count(form, store);
    let mut known = [0u16; 16384];
    let mut sums = [0u32; 16384];
    hash_ahead(form, store, guess, &mut known);
    let j = tie_all(form, store, kept, guess, &mut known, &mut sums);
    if j < n {
        let a = wide(guess[2 * j]);
        let b = wide(guess[2 * j + 1]);
        return Some(suspect(form, store, kept, j, a, b));
    }
    let i = covered(form, store, kept, &sums);
    if i < n {
        return Some(i);
    }
    None
}

// A slot that may fail, or none where each slot passes; own fields first, so that no spoiled slot stands beside a
// right one in the order. The guesses of the children's slots stay in the caller's room.
pub fn quick_with(form: Form, store: &[u8], kept: Kept, guess: &mut [u16; 32768]) -> Option<usize>
    requires { Keeps form store.now kept }
    ensures { Sure result (slots_test leaf_hash inner_hash (store_in form store.now) ≡ true) }
{
    let n = slot_count(form, store);
    let i = own_right(form, store, kept);
    if i < n {
        return Some(i);
    }
    match alone(form, store, kept, guess) {
        None => linked(form, store, kept, guess),
        Some(i) => Some(i),
    }
}

// The same with room of its own for the guesses.
pub fn quick(form: Form, store: &[u8], kept: Kept) -> Option<usize>
    requires { Keeps form store.now kept }
    ensures { Sure result (slots_test leaf_hash inner_hash (store_in form store.now) ≡ true) }
{
    let mut guess = [0u16; 32768];
    quick_with(form, store, kept, &mut guess)
}
