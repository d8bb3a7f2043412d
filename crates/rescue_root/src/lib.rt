// The root record of a version in a source of any contents, document 02, requests 2026-08 and 2026-13.
#![tactic(auto)]

ghost use Rattle.std.specs.Prelude.{◌≡◌, true, false, [], length};
ghost use Rattle.std.proofs.Math.Option.{none};
ghost use Rattle.meaning.specs.Store.{find};
ghost use Rattle.local.specs.Test.{by_record};
ghost use Rattle.layout.specs.Headers.{size_right};
ghost use Rattle.layout.specs.Stores.{store_of, slot_no, Has};
ghost use Rattle.lookup.specs.Lookup.{Located};
ghost use Rattle.ordered.specs.Ordered.{node_key, Guide, Ordered};
ghost use Rattle.order_halves.specs.First.{First};
ghost use Rattle.rescue_rules.specs.Rescue.{newest_root};
ghost use Rattle.rescue_rules.specs.Joining.{root_version};
ghost use Rattle.rescue_root.specs.Roots.{root_above};

use lookup::holds_record;
use order_find::{find_first, first};
use order_near::first_near;
use place::Place;
use store::{count_at, retired_at, slot_count, slot_of, version_at, wide};
use terms::Form;

// Whether slot i holds a root record of a version above `above` and not above `version`.
fn newer_root(source: &[u8], i: usize, above: u32, version: u32) -> bool
    requires { Has Form.Counted source.now i }
    ensures { result ≡ by_record false (root_above above version) (slot_no Form.Counted i source.now) }
{
    let v = version_at(Form::Counted, source, i);
    if v <= above {
        return false;
    }
    if version < v {
        return false;
    }
    if count_at(Form::Counted, source, i) != 0 {
        return false;
    }
    holds_record(slot_of(Form::Counted, source, i))
}

// The slot of the newest root record not above a version, the lowest of its version.
fn newest_root(source: &[u8], version: u32) -> Option<usize>
    requires { size_right Form.Counted (length source.now) ≡ true }
    ensures { Located (store_of source.now).slots (newest_root version (store_of source.now).slots) result }
{
    let mut best = None;
    let mut above = 0;
    for i in 0..slot_count(Form::Counted, source) {
        if newer_root(source, i, above, version) {
            above = version_at(Form::Counted, source, i);
            best = Some(i);
        }
    }
    best
}

// The same by a table, where no root record is of the version itself: that of the entry before entry k, the lowest of its version. Where no entry is before, the scan.
fn newest_before(source: &[u8], order: &[u16], k: usize, version: u32) -> Option<usize>
    requires { (size_right Form.Counted (length source.now) ≡ true) × Ordered (store_of source.now).slots order.now (length order.now) × First (store_of source.now).slots order.now (length order.now) (node_key version []) k × (find version [] (store_of source.now).slots ≡ none) }
    ensures { Located (store_of source.now).slots (newest_root version (store_of source.now).slots) result }
{
    if k == 0 {
        return newest_root(source, version);
    }
    let own = version_at(Form::Counted, source, wide(order[k - 1]));
    let top = Place::top();
    let m = first_near(source, order, k - 1, own, top);
    find_first(source, order, m, own, top)
}

// The same by a table to find by: a root record of the version itself is the newest.
fn newest_by(source: &[u8], order: &[u16], version: u32) -> Option<usize>
    requires { (size_right Form.Counted (length source.now) ≡ true) × Guide (store_of source.now).slots order.now (length order.now) }
    ensures { Located (store_of source.now).slots (newest_root version (store_of source.now).slots) result }
{
    if order.is_empty() {
        return newest_root(source, version);
    }
    let top = Place::top();
    let k = first(source, order, version, top);
    let found = find_first(source, order, k, version, top);
    if let Some(i) = found {
        return Some(i);
    }
    newest_before(source, order, k, version)
}

// The version of the root record of a version; 0 where there is none, or where the newest one was retired by then.
pub fn root_version(source: &[u8], order: &[u16], version: u32) -> u32
    requires { (size_right Form.Counted (length source.now) ≡ true) × Guide (store_of source.now).slots order.now (length order.now) }
    ensures { result ≡ root_version (store_of source.now).slots version }
{
    let newest = newest_by(source, order, version);
    let Some(i) = newest else {
        return 0;
    };
    let since = retired_at(Form::Counted, source, i);
    let v = version_at(Form::Counted, source, i);
    if since == 0 {
        return v;
    }
    if since <= version {
        return 0;
    }
    v
}
