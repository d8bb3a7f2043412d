// The parts of a message written one after the other into a room, document 02, request 2026-02: each function answers where the next part begins.
#![tactic(auto)]

ghost use Rattle.std.specs.Prelude.{◌≡◌, true, cond, ◌∷◌, [], ◌+◌, ◌*◌, ◌<◌, ◌≤◌, ◌%◌, length, eqb};
ghost use Rattle.proofrecords.specs.ProofBytes.{is_presence, presence_in};
ghost use Rattle.messages.specs.Wire.{varint, message_field};
ghost use Rattle.messages.specs.Message.{existence, neighbour_field};
ghost use Rattle.messages.specs.Raws.{leaf_op, inner_op, path};
ghost use Rattle.messages.specs.Lending.{raw_presence, raw_neighbour};
ghost use Rattle.message_rules.specs.Puts.{Puts, RoomFor};
ghost use Rattle.message_lent.specs.Lent.{leaf, record_in, InForm};
ghost use Rattle.message_put.specs.Inner.{step_of, inner_head, Lendable};

use fields::{copy, get_u16};
use message_lent::existence_size;
use proofrecords::{PRESENCE_HEAD, STEP_SIZE, STEPS_AT};

// Writes a byte.
fn put_byte(room: &mut [u8], at: usize, b: u8) -> usize
    requires { at < length room.old }
    ensures { Puts at (b ∷ []) room.old room.new result }
{
    room[at] = b;
    at + 1
}

// The low seven bits, with 128 added since another byte follows.
fn low(x: usize) -> u8
    ensures { result ≡ 128 + x % 128 }
{
    (128 + x % 128) as u8
}

// Writes a varint of at most three bytes.
fn put_varint(room: &mut [u8], at: usize, x: usize) -> usize
    requires { (x < 100000) × RoomFor at (varint x) room.old }
    ensures { Puts at (varint x) room.old room.new result }
{
    if x < 128 {
        return put_byte(room, at, x as u8);
    }
    let second = put_byte(room, at, low(x));
    let high = x / 128;
    if high < 128 {
        return put_byte(room, second, high as u8);
    }
    let third = put_byte(room, second, low(high));
    put_byte(room, third, (high / 128) as u8)
}

// Writes the tag of field n and a length.
pub fn put_head(room: &mut [u8], at: usize, n: u8, size: usize) -> usize
    requires { ((n ≤ 15) × (size < 100000)) × RoomFor at ((8 * n + 2) ∷ varint size) room.old }
    ensures { Puts at ((8 * n + 2) ∷ varint size) room.old room.new result }
{
    let start = put_byte(room, at, 8 * n + 2);
    put_varint(room, start, size)
}

// Writes bytes.
fn put_bytes(room: &mut [u8], at: usize, x: &[u8]) -> usize
    requires { RoomFor at x.now room.old }
    ensures { Puts at x.now room.old room.new result }
{
    let end = at + x.len();
    copy(&mut room[at..end], x);
    end
}

// Writes field n of bytes.
pub fn put_field(room: &mut [u8], at: usize, n: u8, x: &[u8]) -> usize
    requires { ((n ≤ 15) × (length x.now < 100000)) × RoomFor at (message_field n x.now) room.old }
    ensures { Puts at (message_field n x.now) room.old room.new result }
{
    let start = put_head(room, at, n, x.len());
    put_bytes(room, start, x)
}

// Writes what stands before the sibling in the field of an inner op.
fn put_inner_head(room: &mut [u8], at: usize, side: u8) -> usize
    requires { RoomFor at (inner_head side) room.old }
    ensures { Puts at (inner_head side) room.old room.new result }
{
    if side == 1 {
        let right: [u8; 7] = [34, 37, 8, 1, 18, 33, 0];
        return put_bytes(room, at, &right);
    }
    let left: [u8; 9] = [34, 39, 8, 1, 18, 1, 0, 26, 32];
    put_bytes(room, at, &left)
}

// Writes the inner op of a step.
fn put_inner(room: &mut [u8], at: usize, step: &[u8]) -> usize
    requires { (length step.now ≡ 33) × RoomFor at (message_field 4 (inner_op (step_of step.now))) room.old }
    ensures { Puts at (message_field 4 (inner_op (step_of step.now))) room.old room.new result }
{
    let start = put_inner_head(room, at, step[0]);
    put_bytes(room, start, &step[1..STEP_SIZE])
}

// Writes the path of a presence proof.
fn put_path(room: &mut [u8], at: usize, p: &[u8]) -> usize
    requires { (is_presence p.now ≡ true) × RoomFor at (path (presence_in p.now).steps) room.old }
    ensures { Puts at (path (presence_in p.now).steps) room.old room.new result }
{
    let n = get_u16(p, STEPS_AT) as usize;
    let mut next = at;
    for i in 0..n {
        let from = PRESENCE_HEAD + STEP_SIZE * i;
        let end = from + STEP_SIZE;
        next = put_inner(room, next, &p[from..end]);
    }
    next
}

// Writes the field of the leaf op.
fn put_leaf_op(room: &mut [u8], at: usize) -> usize
    requires { RoomFor at (message_field 3 leaf_op) room.old }
    ensures { Puts at (message_field 3 leaf_op) room.old room.new result }
{
    let leaf: [u8; 11] = [26, 9, 8, 1, 16, 1, 24, 1, 42, 1, 1];
    put_bytes(room, at, &leaf)
}

// Writes an existence proof: the raw key and value, the leaf op and the path of a presence proof.
pub fn put_existence(room: &mut [u8], at: usize, key: &[u8], value: &[u8], p: &[u8]) -> usize
    requires { ((is_presence p.now ≡ true) × Lendable key.now value.now) × RoomFor at (existence (raw_presence (leaf key.now value.now) (presence_in p.now))) room.old }
    ensures { Puts at (existence (raw_presence (leaf key.now value.now) (presence_in p.now))) room.old room.new result }
{
    let after_key = put_field(room, at, 1, key);
    let after_value = put_field(room, after_key, 2, value);
    let after_leaf = put_leaf_op(room, after_value);
    put_path(room, after_leaf, p)
}

// Writes field n of a neighbour, where its record has bytes.
pub fn put_neighbour(room: &mut [u8], at: usize, n: u8, key: &[u8], value: &[u8], p: &[u8]) -> usize
    requires { ((n ≤ 15) × InForm p.now × ((length p.now ≡ 0 → ⊥) → Lendable key.now value.now)) × RoomFor at (neighbour_field n (raw_neighbour (leaf key.now value.now) (record_in p.now))) room.old }
    ensures { Puts at (neighbour_field n (raw_neighbour (leaf key.now value.now) (record_in p.now))) room.old room.new result }
{
    if p.len() == 0 {
        return at;
    }
    let size = existence_size(key.len(), value.len(), p);
    let start = put_head(room, at, n, size);
    put_existence(room, start, key, value, p)
}
