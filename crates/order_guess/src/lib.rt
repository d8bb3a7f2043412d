// A table to find by, made for one call on its own stack: a sort guesses the order, a look says whether it is right, and where it isn't there is no table.
#![tactic(auto)]

ghost use Rattle.std.specs.Prelude.{◌≡◌, true, ◌≤◌, length};
ghost use Rattle.layout.specs.Headers.{size_right};
ghost use Rattle.layout.specs.Stores.{store_of};
ghost use Rattle.check_pass.specs.Passes.{Room};
ghost use Rattle.ordered.specs.Ordered.{Guide};

use check_sort::{rank, sort};
use order_table::{names_form, ordered};
use store::{slot_count, wide};
use terms::Form;

// The entries that name slots in form, in the order they had, and how many there are.
fn in_form(store: &[u8], n: usize, table: &mut [u16; 16384], many: usize) -> usize
    requires { Room Form.Counted store.now n × (many ≤ 16384) }
    ensures { result ≤ 16384 }
{
    let mut kept = 0;
    for k in 0..many {
        let i = table[k];
        if names_form(store, n, wide(i)) {
            table[kept] = i;
            kept += 1;
        }
    }
    kept
}

// A guess at the table: the slots in form by bit count, bits, version and number, and how many there are.
fn guess_order(store: &[u8], table: &mut [u16; 16384], spare: &mut [u16; 16384]) -> usize
    requires { size_right Form.Counted (length store.now) ≡ true }
    ensures { result ≤ 16384 }
{
    let n = slot_count(Form::Counted, store);
    let many = sort(Form::Counted, store, n, table, spare);
    in_form(store, n, table, many)
}

// Makes a table to find by: it has no entries where the guess wasn't right. The spare room is for the work.
pub fn guide_with<'t>(
    store: &[u8],
    table: &'t mut [u16; 16384],
    spare: &mut [u16; 16384],
) -> &'t [u16]
    requires { size_right Form.Counted (length store.now) ≡ true }
    ensures { Guide (store_of store.now).slots result.now (length result.now) }
{
    let many = guess_order(store, table, spare);
    let order = &table[..many];
    rank(order, spare);
    if !ordered(store, order, spare) {
        return &order[..0];
    }
    order
}

// The same with room of its own for the work.
pub fn guide<'t>(store: &[u8], table: &'t mut [u16; 16384]) -> &'t [u16]
    requires { size_right Form.Counted (length store.now) ≡ true }
    ensures { Guide (store_of store.now).slots result.now (length result.now) }
{
    let mut spare = [0u16; 16384];
    guide_with(store, table, &mut spare)
}
