// Where the children of each record stand, made for one call on its own stack: guessed by an ordered table, and each guess looked at once. What stays names
// only slots that a scan finds too, the lowest of their node.
#![tactic(auto)]

ghost use Rattle.std.specs.Prelude.{◌≡◌, true, ◌<◌, length, get_or};
ghost use Rattle.terms.specs.Bits.{before};
ghost use Rattle.layout.specs.Headers.{size_right};
ghost use Rattle.layout.specs.Stores.{store_of};
ghost use Rattle.check_pass.specs.Passes.{Passed};
ghost use Rattle.ordered.specs.Ordered.{key_no, Leads, LeadsIf, Leading};
ghost use Rattle.order_look.specs.Looks.{Formed};
ghost use Rattle.order_kids.specs.Kids.{Tabled};

use check_guess::guessed;
use check_sort::rank;
use order_guess::guide_with;
use order_table::node_stands;
use store::{slot_count, wide};
use terms::Form;

// Whether the node of slot i, in form, stands before that of slot j, in form.
fn node_before(store: &[u8], i: usize, j: usize) -> bool
    requires { Formed store.now i × Formed store.now j }
    ensures { Passed result (before (key_no (store_of store.now).slots i) (key_no (store_of store.now).slots j) ≡ true) }
{
    node_stands(store, i, j).is_lt()
}

// Whether entry k names the lowest slot of its node: no entry before it names one with the same node.
fn leads_at(store: &[u8], order: &[u16], k: usize) -> bool
    requires { Tabled store.now order.now (length order.now) × (k < length order.now) }
    ensures { Passed result (Leads (store_of store.now).slots (get_or order.now k 0)) }
{
    if k == 0 {
        return true;
    }
    node_before(store, wide(order[k - 1]), wide(order[k]))
}

// Whether a slot is the lowest of its node, by where its rank says that it is named.
fn leads(store: &[u8], order: &[u16], ranks: &[u16; 16384], i: usize) -> bool
    requires { Tabled store.now order.now (length order.now) × (i < 16384) }
    ensures { Passed result (Leads (store_of store.now).slots i) }
{
    let k = wide(ranks[i]);
    if order.len() <= k {
        return false;
    }
    if wide(order[k]) != i {
        return false;
    }
    leads_at(store, order, k)
}

// A guess that names the lowest slot of a node, one higher; instead of another 0, which names none.
fn kept(store: &[u8], order: &[u16], ranks: &[u16; 16384], guess: u16) -> u16
    requires { Tabled store.now order.now (length order.now) }
    ensures { LeadsIf (store_of store.now).slots result }
{
    let i = wide(guess);
    if 16384 <= i {
        return 0;
    }
    if !leads(store, order, ranks, i) {
        return 0;
    }
    guess + 1
}

// All guesses looked at.
fn keep_all(store: &[u8], order: &[u16], ranks: &[u16; 16384], kids: &mut [u16; 32768])
    requires { Tabled store.now order.now (length order.now) }
    ensures { Leading (store_of store.now).slots kids.new }
{
    for kid in kids.iter_mut() {
        *kid = kept(store, order, ranks, *kid);
    }
}

// The slots of the children of each slot, on the left and on the right, each one higher; 0 where none is guessed.
pub fn children(store: &[u8], kids: &mut [u16; 32768])
    requires { size_right Form.Counted (length store.now) ≡ true }
    ensures { Leading (store_of store.now).slots kids.new }
{
    let n = slot_count(Form::Counted, store);
    let mut table = [0u16; 16384];
    let mut spare = [0u16; 16384];
    let order = guide_with(store, &mut table, &mut spare);
    guessed(Form::Counted, store, n, order, kids);
    rank(order, &mut spare);
    keep_all(store, order, &spare, kids);
}
