// The search through a table of slot numbers, document 02, request 2026-05: it halves, and an entry that names no slot in form counts as too great.
#![tactic(auto)]

ghost use Rattle.std.specs.Prelude.{◌≡◌, true, length, get_or};
ghost use Rattle.indexed.specs.Index.{node_look, root_look, search};
ghost use Rattle.place.specs.Place.{place_of, Proper};
ghost use Rattle.layout.specs.Headers.{size_right};
ghost use Rattle.layout.specs.Stores.{store_of};
ghost use Rattle.lookup.specs.Lookup.{Located};
ghost use Rattle.index_entry.specs.Entries.{look_for};

use index_entry::look_entry;
use place::Place;
use std::cmp::Ordering;
use store::slot_count;
use terms::Form;

// The entry at a position of a table; beyond its end the number of slots, which names none.
fn entry_at(table: &[u32], k: usize, n: usize) -> usize
    ensures { result ≡ get_or table.now k n }
{
    if table.len() <= k {
        return n;
    }
    table[k] as usize
}

// The slot on which the search for a root or for a node ends. A table may have any length; in one without entries nothing is looked at.
fn search(store: &[u8], table: &[u32], version: u32, place: Place, root: bool) -> Option<usize>
    requires { (size_right Form.Counted (length store.now) ≡ true) × Proper place }
    ensures { Located (store_of store.now).slots (search (look_for root version (place_of place)) table.now (store_of store.now).slots) result }
{
    if table.len() == 0 {
        return None;
    }
    let n = slot_count(Form::Counted, store);
    let mut lo = 0;
    let mut hi = n;
    // Halving, which is no count.
    while lo < hi {
        let middle = (lo + hi) / 2;
        let entry = entry_at(table, middle, n);
        let look = look_entry(store, n, entry, version, place, root);
        match look {
            Ordering::Less => lo = middle + 1,
            Ordering::Greater => hi = middle,
            Ordering::Equal => return Some(entry),
        }
    }
    None
}

// The slot on which the search for a version and place ends.
pub fn search_node(store: &[u8], table: &[u32], version: u32, place: Place) -> Option<usize>
    requires { (size_right Form.Counted (length store.now) ≡ true) × Proper place }
    ensures { Located (store_of store.now).slots (search (node_look version (place_of place)) table.now (store_of store.now).slots) result }
{
    search(store, table, version, place, false)
}

// The slot on which the search for the root of a version ends.
pub fn search_root(store: &[u8], table: &[u32], version: u32) -> Option<usize>
    requires { size_right Form.Counted (length store.now) ≡ true }
    ensures { Located (store_of store.now).slots (search (root_look version) table.now (store_of store.now).slots) result }
{
    let top = Place::top();
    search(store, table, version, top, true)
}
