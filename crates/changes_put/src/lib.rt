// The list of changes in a lent buffer, document 02, request 2026-01: records of 72 bytes, a delete with the old value. Where `writes` is
// false nothing is written, and the records are only counted.
#![tactic(auto)]

ghost use Rattle.std.specs.Prelude.{◌≡◌, ◌++◌, ◌+◌, length};
ghost use Rattle.layout.specs.Sizes.{grant_size};
ghost use Rattle.layout.specs.Stores.{SlotWithin};
ghost use Rattle.changed.specs.Changes.{item_size, item_as};
ghost use Rattle.changes_top.specs.Tops.{grant_at};
ghost use Rattle.changes_put.specs.Puts.{grant_of, two_items, end_items, put_into, Fits, Ends, Puts};

use changes_top::Top;
use fields::{copy, put_u16, put_u32};
use place::{before, same};
use slots::{grant_of, key_of, value_of};
use store::slot_of;
use terms::Form;

pub const ITEM_SIZE: usize = 72;

// A record's kind.
const INSERTS: u16 = 1;

const DELETES: u16 = 2;

// The 72 bytes of a record.
fn put_item(part: &mut [u8], kind: u16, grant: &[u8])
    requires { (length part.old ≡ item_size) × (length grant.now ≡ grant_size) }
    ensures { part.new ≡ item_as kind (grant_of grant.now) }
{
    put_u32(part, 0, 72);
    put_u16(part, 4, kind);
    put_u16(part, 6, 0);
    copy(&mut part[8..ITEM_SIZE], grant);
}

// The record with the grant of the leaf in slot i, as number `at` of the list.
fn put_record(store: &[u8], i: usize, kind: u16, writes: bool, room: &mut [u8], at: usize)
    requires { SlotWithin Form.Counted i store.now × Fits writes 1 at room.old }
    ensures { room.new ≡ put_into writes at (item_as kind (grant_at i store.now)) room.old }
{
    if !writes {
        return;
    }
    let start = ITEM_SIZE * at;
    let end = start + ITEM_SIZE;
    put_item(
        &mut room[start..end],
        kind,
        grant_of(slot_of(Form::Counted, store, i)),
    );
}

// Two records, one after the other; answers the number of the next one.
fn put_pair(
    store: &[u8],
    i: usize,
    kind: u16,
    j: usize,
    other: u16,
    writes: bool,
    room: &mut [u8],
    at: usize,
) -> usize
    requires { (SlotWithin Form.Counted i store.now × SlotWithin Form.Counted j store.now) × Fits writes 2 at room.old }
    ensures next { result ≡ at + 2 }
    ensures bytes { room.new ≡ put_into writes at (item_as kind (grant_at i store.now) ++ item_as other (grant_at j store.now)) room.old }
{
    put_record(store, i, kind, writes, room, at);
    put_record(store, j, other, writes, room, at + 1);
    at + 2
}

// What changed from the leaf in slot i to the one in slot j; answers the number of the next record.
fn put_two(store: &[u8], i: usize, j: usize, writes: bool, room: &mut [u8], at: usize) -> usize
    requires { (SlotWithin Form.Counted i store.now × SlotWithin Form.Counted j store.now) × Fits writes (length (two_items store.now i j)) at room.old }
    ensures { Puts writes at (two_items store.now i j) room.old result room.new }
{
    let old = slot_of(Form::Counted, store, i);
    let new = slot_of(Form::Counted, store, j);
    if before(key_of(new), key_of(old)) {
        return put_pair(store, j, INSERTS, i, DELETES, writes, room, at);
    }
    if before(key_of(old), key_of(new)) {
        return put_pair(store, i, DELETES, j, INSERTS, writes, room, at);
    }
    if same(value_of(old), value_of(new)) {
        return at;
    }
    put_pair(store, i, DELETES, j, INSERTS, writes, room, at)
}

// What changed between two tops that go no deeper; answers the number of the next record.
pub fn put_ends(
    store: &[u8],
    first: Top,
    second: Top,
    writes: bool,
    room: &mut [u8],
    at: usize,
) -> usize
    requires { Ends store.now first second writes at room.old }
    ensures { Puts writes at (end_items store.now first second) room.old result room.new }
{
    let Top::Leaf(i) = first else {
        let Top::Leaf(j) = second else {
            return at;
        };
        put_record(store, j, INSERTS, writes, room, at);
        return at + 1;
    };
    let Top::Leaf(j) = second else {
        put_record(store, i, DELETES, writes, room, at);
        return at + 1;
    };
    put_two(store, i, j, writes, room, at)
}
