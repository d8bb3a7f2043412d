// Writing a message, document 02, request 2026-02: our own record with the raw keys and values lent, as the message of ICS 23. Order: 10, 15, 9.
#![tactic(auto)]

ghost use Rattle.std.specs.Prelude.{◌≡◌, true, cond, ◌&&◌, ◌≤◌, length};
ghost use Rattle.std.proofs.Math.Option.{some};
ghost use Rattle.terms.specs.Bits.{Bytes};
ghost use Rattle.terms.specs.Fields.{slice};
ghost use Rattle.terms.specs.Records.{presence, absence};
ghost use Rattle.meaning.specs.Calls.{refused};
ghost use Rattle.sha256.specs.Sha256.{sha256};
ghost use Rattle.proofrecords.specs.ProofBytes.{flags, is_presence, presence_in, is_absence, absence_in, proof_in};
ghost use Rattle.messages.specs.Message.{message_bytes};
ghost use Rattle.messages.specs.Lending.{hashes_to, raw_presence, written_from};
ghost use Rattle.message_lent.specs.Lent.{leaf, record_in, InForm, neighbour_fits};
ghost use Rattle.message_put.specs.Inner.{Lendable};
ghost use Rattle.message_write.specs.Wrote.{lent, fitted_in, besides, AskedRaw, LendableOr, Writes};

use fields::{get_u16, get_u32};
use message_lent::{
    MOST_KEY, existence_size, field_size, hashes_to, leaf_fits, neighbour_fits, neighbour_size,
    unlent,
};
use message_put::{put_existence, put_field, put_head, put_neighbour};
use proofrecords::{ABSENCE_HEAD, FLAGS_AT, KEY_AT};
use refusal_numbers::Refusal;
use verify_form::{is_absence, is_presence};

// Writes the message of a presence, if it fits the room, and answers its length.
fn write_exist(p: &[u8], key: &[u8], value: &[u8], room: &mut [u8]) -> Result<u32, Refusal>
    requires { (is_presence p.now ≡ true) × Lendable key.now value.now }
    ensures { Writes (fitted_in (presence (raw_presence (leaf key.now value.now) (presence_in p.now))) room.old) room.old result room.new }
{
    let size = existence_size(key.len(), value.len(), p);
    let total = field_size(size);
    if room.len() < total {
        return Err(Refusal::NoRoom);
    }
    let start = put_head(room, 0, 1, size);
    put_existence(room, start, key, value, p);
    Ok(total as u32)
}

fn write_presence(
    p: &[u8],
    asked: &[u8],
    key1: &[u8],
    value1: &[u8],
    key2: &[u8],
    value2: &[u8],
    room: &mut [u8],
) -> Result<u32, Refusal>
    requires { is_presence p.now ≡ true }
    ensures { Writes (written_from sha256 (some (presence (presence_in p.now))) (lent asked.now (leaf key1.now value1.now) (leaf key2.now value2.now)) (length room.old)) room.old result room.new }
{
    if !hashes_to(asked, MOST_KEY, p, KEY_AT) {
        return Err(Refusal::NotRaw);
    }
    if !leaf_fits(key1, value1, p) {
        return Err(Refusal::NotRaw);
    }
    if !unlent(key2, value2) {
        return Err(Refusal::NotRaw);
    }
    write_exist(p, key1, value1, room)
}

// Writes the message of an absence, if it fits the room. A neighbour's record without bytes is none.
fn write_nonexist(
    asked: &[u8],
    left: &[u8],
    lkey: &[u8],
    lvalue: &[u8],
    right: &[u8],
    rkey: &[u8],
    rvalue: &[u8],
    room: &mut [u8],
) -> Result<u32, Refusal>
    requires { AskedRaw asked.now × (LendableOr left.now lkey.now lvalue.now × LendableOr right.now rkey.now rvalue.now) }
    ensures { Writes (fitted_in (besides asked.now (leaf lkey.now lvalue.now) (record_in left.now) (leaf rkey.now rvalue.now) (record_in right.now)) room.old) room.old result room.new }
{
    let size = field_size(asked.len())
        + neighbour_size(lkey.len(), lvalue.len(), left)
        + neighbour_size(rkey.len(), rvalue.len(), right);
    let whole = field_size(size);
    if room.len() < whole {
        return Err(Refusal::NoRoom);
    }
    let start = put_head(room, 0, 2, size);
    let after_key = put_field(room, start, 1, asked);
    let after_left = put_neighbour(room, after_key, 2, lkey, lvalue, left);
    put_neighbour(room, after_left, 3, rkey, rvalue, right);
    Ok(whole as u32)
}

// The same, if the leaves lent are the neighbours'.
fn write_neighbours(
    asked: &[u8],
    left: &[u8],
    lkey: &[u8],
    lvalue: &[u8],
    right: &[u8],
    rkey: &[u8],
    rvalue: &[u8],
    room: &mut [u8],
) -> Result<u32, Refusal>
    requires { AskedRaw asked.now × (InForm left.now × InForm right.now) }
    ensures { Writes (cond (neighbour_fits (leaf lkey.now lvalue.now) (record_in left.now) && neighbour_fits (leaf rkey.now rvalue.now) (record_in right.now)) (fitted_in (besides asked.now (leaf lkey.now lvalue.now) (record_in left.now) (leaf rkey.now rvalue.now) (record_in right.now)) room.old) (refused 15)) room.old result room.new }
{
    if !neighbour_fits(lkey, lvalue, left) {
        return Err(Refusal::NotRaw);
    }
    if !neighbour_fits(rkey, rvalue, right) {
        return Err(Refusal::NotRaw);
    }
    write_nonexist(asked, left, lkey, lvalue, right, rkey, rvalue, room)
}

// The absence with one neighbour: a second leaf is one too many.
fn write_one(
    p: &[u8],
    asked: &[u8],
    key1: &[u8],
    value1: &[u8],
    key2: &[u8],
    value2: &[u8],
    room: &mut [u8],
) -> Result<u32, Refusal>
    requires { ((is_absence p.now ≡ true) × (flags p.now ≤ 2)) × (hashes_to sha256 256 asked.now (slice 8 32 p.now) ≡ true) }
    ensures { Writes (written_from sha256 (some (absence (absence_in p.now))) (lent asked.now (leaf key1.now value1.now) (leaf key2.now value2.now)) (length room.old)) room.old result room.new }
{
    if !unlent(key2, value2) {
        return Err(Refusal::NotRaw);
    }
    let n = p.len();
    if get_u16(p, FLAGS_AT) == 1 {
        return write_neighbours(
            asked,
            &p[ABSENCE_HEAD..n],
            key1,
            value1,
            &p[n..n],
            key2,
            value2,
            room,
        );
    }
    write_neighbours(
        asked,
        &p[n..n],
        key2,
        value2,
        &p[ABSENCE_HEAD..n],
        key1,
        value1,
        room,
    )
}

fn write_absence(
    p: &[u8],
    asked: &[u8],
    key1: &[u8],
    value1: &[u8],
    key2: &[u8],
    value2: &[u8],
    room: &mut [u8],
) -> Result<u32, Refusal>
    requires { is_absence p.now ≡ true }
    ensures { Writes (written_from sha256 (some (absence (absence_in p.now))) (lent asked.now (leaf key1.now value1.now) (leaf key2.now value2.now)) (length room.old)) room.old result room.new }
{
    if !hashes_to(asked, MOST_KEY, p, KEY_AT) {
        return Err(Refusal::NotRaw);
    }
    if get_u16(p, FLAGS_AT) <= 2 {
        return write_one(p, asked, key1, value1, key2, value2, room);
    }
    let n = p.len();
    let e = ABSENCE_HEAD + get_u32(p, ABSENCE_HEAD) as usize;
    write_neighbours(
        asked,
        &p[ABSENCE_HEAD..e],
        key1,
        value1,
        &p[e..n],
        key2,
        value2,
        room,
    )
}

// Writes the message of a record to the front of the room. Lent are the raw key asked for, and raw key and value of the leaf shown or the left of two, and of the
// right of two; a leaf not shown has no bytes.
pub fn write(
    p: &[u8],
    asked: &[u8],
    key1: &[u8],
    value1: &[u8],
    key2: &[u8],
    value2: &[u8],
    room: &mut [u8],
) -> Result<u32, Refusal>
    ensures { Writes (written_from sha256 (proof_in p.now) (lent asked.now (leaf key1.now value1.now) (leaf key2.now value2.now)) (length room.old)) room.old result room.new }
{
    if is_presence(p) {
        return write_presence(p, asked, key1, value1, key2, value2, room);
    }
    if is_absence(p) {
        return write_absence(p, asked, key1, value1, key2, value2, room);
    }
    Err(Refusal::NotInForm)
}
