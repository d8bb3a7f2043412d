// What finding by a table tells apart, document 02, request 2026-05: a search that doesn't end on a matching slot falls back on the scan.
#![tactic(auto)]

ghost use Rattle.std.specs.Prelude.{◌≡◌, true, length};
ghost use Rattle.indexed.specs.Index.{root_by, node_by};
ghost use Rattle.place.specs.Place.{place_of, Proper};
ghost use Rattle.layout.specs.Headers.{size_right};
ghost use Rattle.layout.specs.Stores.{store_of};
ghost use Rattle.sights.specs.Sights.{Sighted};

use index_search::{search_node, search_root};
use place::Place;
use sights::{Sight, look, look_root};
use terms::Form;

// What is found of a version and place.
pub fn look_by(store: &[u8], table: &[u32], version: u32, place: Place) -> Sight
    requires { (size_right Form.Counted (length store.now) ≡ true) × Proper place }
    ensures { Sighted (store_of store.now).slots (node_by table.now (store_of store.now) version (place_of place)) result }
{
    search_node(store, table, version, place).map_or_else(
        || look(store, version, place),
        Sight::Matches,
    )
}

// What is found of the root of a version.
pub fn look_root_by(store: &[u8], table: &[u32], version: u32) -> Sight
    requires { size_right Form.Counted (length store.now) ≡ true }
    ensures { Sighted (store_of store.now).slots (root_by table.now (store_of store.now) version) result }
{
    search_root(store, table, version).map_or_else(|| look_root(store, version), Sight::Matches)
}
