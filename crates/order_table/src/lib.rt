// Whether a table names the slots in form of a store in the order of their nodes: one look at each entry and each slot. Nothing is known of the table before.
#![tactic(auto)]

ghost use Rattle.std.specs.Prelude.{◌≡◌, true, ◌+◌, ◌<◌, length};
ghost use Rattle.layout.specs.Sizes.{room_of};
ghost use Rattle.layout.specs.Headers.{size_right};
ghost use Rattle.layout.specs.Stores.{store_of, slot_in, Has};
ghost use Rattle.check_pass.specs.Passes.{Room, Passed, Each};
ghost use Rattle.ordered.specs.Ordered.{Ahead, Ordered};
ghost use Rattle.order_look.specs.Looks.{Formed, Stands, key_in};
ghost use Rattle.order_table.specs.Tables.{InOrder, NamedNo};

use lookup::holds_record;
use order_look::compared;
use slots::bits_of;
use std::cmp::Ordering;
use store::{count_at, slot_count, slot_of, version_at, wide};
use terms::Form;

// How slot i, in form, stands to the node of slot j, in form.
pub fn node_stands(store: &[u8], i: usize, j: usize) -> Ordering
    requires { Formed store.now i × Formed store.now j }
    ensures { Stands result (slot_in Form.Counted i store.now) (key_in (slot_in Form.Counted j store.now)) }
{
    let count = wide(count_at(Form::Counted, store, j));
    let version = version_at(Form::Counted, store, j);
    let bits = bits_of(slot_of(Form::Counted, store, j));
    compared(store, i, count, bits, version)
}

// Whether slot i, in form, stands before slot j, in form.
fn ahead(store: &[u8], i: usize, j: usize) -> bool
    requires { Formed store.now i × Formed store.now j }
    ensures { Passed result (Ahead (store_of store.now).slots i j) }
{
    let stands = node_stands(store, i, j);
    match stands {
        Ordering::Less => true,
        Ordering::Equal => i < j,
        Ordering::Greater => false,
    }
}

// Whether an entry names a slot in form.
pub fn names_form(store: &[u8], n: usize, i: usize) -> bool
    requires { Room Form.Counted store.now n }
    ensures { Passed result (Formed store.now i) }
{
    if n <= i {
        return false;
    }
    holds_record(slot_of(Form::Counted, store, i))
}

// Whether entry k names a slot in form that stands after those of the entries before.
fn follows(store: &[u8], n: usize, order: &[u16], k: usize) -> bool
    requires { Room Form.Counted store.now n × (k < length order.now) × InOrder store.now order.now k }
    ensures { Passed result (InOrder store.now order.now (k + 1)) }
{
    let i = wide(order[k]);
    if !names_form(store, n, i) {
        return false;
    }
    if k == 0 {
        return true;
    }
    ahead(store, wide(order[k - 1]), i)
}

// Whether the entries name slots in form in ascending order.
fn ascending(store: &[u8], order: &[u16]) -> bool
    requires { size_right Form.Counted (length store.now) ≡ true }
    ensures { Passed result (InOrder store.now order.now (length order.now)) }
{
    let n = slot_count(Form::Counted, store);
    for k in 0..order.len() {
        if !follows(store, n, order, k) {
            return false;
        }
    }
    true
}

// Whether slot i is named where its rank says, if it is in form.
fn slot_named(store: &[u8], order: &[u16], rank: u16, i: usize) -> bool
    requires { Has Form.Counted store.now i }
    ensures { Passed result (NamedNo store.now order.now (length order.now) i) }
{
    if !holds_record(slot_of(Form::Counted, store, i)) {
        return true;
    }
    let k = wide(rank);
    if order.len() <= k {
        return false;
    }
    wide(order[k]) == i
}

// Whether each slot in form is named where its rank says.
fn all_named(store: &[u8], order: &[u16], ranks: &[u16; 16384]) -> bool
    requires { size_right Form.Counted (length store.now) ≡ true }
    ensures { Passed result (Each (NamedNo store.now order.now (length order.now)) (room_of Form.Counted (length store.now))) }
{
    let n = slot_count(Form::Counted, store);
    for i in 0..n {
        if !slot_named(store, order, ranks[i], i) {
            return false;
        }
    }
    true
}

// Whether the entries of a table name the slots in form and no other, in their order: each slot where its rank says. Nothing is known of the ranks before.
pub fn ordered(store: &[u8], order: &[u16], ranks: &[u16; 16384]) -> bool
    requires { size_right Form.Counted (length store.now) ≡ true }
    ensures { Passed result (Ordered (store_of store.now).slots order.now (length order.now)) }
{
    if !ascending(store, order) {
        return false;
    }
    all_named(store, order, ranks)
}
