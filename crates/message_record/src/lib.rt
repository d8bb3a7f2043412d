// Our own record of what a message says, written from the message, document 02, request 2026-02: keys and values are hashed by SHA-256.
#![tactic(auto)]

ghost use Rattle.std.specs.Prelude.{◌≡◌, cond, ◌+◌, ◌*◌, ◌≤◌, length, eqb};
ghost use Rattle.std.specs.Option.{ForSome};
ghost use Rattle.fields.specs.Written.{written};
ghost use Rattle.sha256.specs.Sha256.{sha256};
ghost use Rattle.proofrecords.specs.ProofBytes.{steps_bytes, presence_bytes, neighbour_bytes, absence_bytes};
ghost use Rattle.messages.specs.Message.{own_presence};
ghost use Rattle.messages.specs.Raws.{own_neighbour};
ghost use Rattle.message_leaf.specs.Shown.{steps_from, presence_at, shown_in};
ghost use Rattle.message_form.specs.Said.{absent_at};
ghost use Rattle.message_record.specs.Ready.{OneStep, StepPut, Ready, ReadyOr, AbsentReady, size_of, flag_of, absent_size, own_absence};

use digest::digest;
use fields::{copy, put_u16, put_u32};
use hash::put_hash;
use message_fields::field;
use message_form::Absent;
use message_leaf::Shown;
use proofrecords::{ABSENCE_HEAD, ABSENCE_KIND, PRESENCE_HEAD, PRESENCE_KIND, STEP_SIZE};

// The side that an inner op says, by its length.
fn side(n: usize) -> u8
    ensures { result ≡ cond (eqb n 39) 0 1 }
{
    if n == 39 {
        return 0;
    }
    1
}

// Writes the step of an inner op: its side, and the sibling, which are its last 32 bytes.
fn put_step(room: &mut [u8], at: usize, op: &[u8])
    requires { OneStep op.now × (at + 33 ≤ length room.old) }
    ensures { StepPut op.now at room.old room.new }
{
    let n = op.len();
    let from = n - 32;
    let start = at + 1;
    let end = at + STEP_SIZE;
    room[at] = side(n);
    copy(&mut room[start..end], &op[from..n]);
}

// Writes the steps of a path of that many.
fn put_steps(room: &mut [u8], at: usize, x: &[u8], path: usize, count: usize)
    requires { (path ≤ length x.now) × (length (steps_from path x.now) ≡ count) × (at + 33 * count ≤ length room.old) }
    ensures { room.new ≡ written at (steps_bytes (steps_from path x.now)) room.old }
{
    let mut from = path;
    for i in 0..count {
        let part = field(x, from, 4).unwrap();
        put_step(room, at + STEP_SIZE * i, &x[part.from..part.to]);
        from = part.to;
    }
}

// Writes the SHA-256 of bytes.
fn put_digest(room: &mut [u8], at: usize, x: &[u8])
    requires { at + 32 ≤ length room.old }
    ensures { room.new ≡ written at (sha256 x.now) room.old }
{
    let end = at + 32;
    let h = digest(x);
    put_hash(&mut room[at..end], h);
}

// How many bytes our record of an existence proof has.
pub fn presence_size(p: Shown) -> usize
    requires { p.count ≤ 256 }
    ensures { result ≡ 72 + 33 * p.count }
{
    PRESENCE_HEAD + STEP_SIZE * p.count
}

// Writes our record of an existence proof.
pub fn put_presence(room: &mut [u8], at: usize, x: &[u8], p: Shown)
    requires { Ready x.now p × (at + (72 + 33 * p.count) ≤ length room.old) }
    ensures { room.new ≡ written at (presence_bytes (own_presence sha256 (presence_at x.now p))) room.old }
{
    let key = p.key;
    let key_end = p.kstop;
    let value = p.value;
    let value_end = p.vstop;
    let size = presence_size(p);
    put_u32(room, at, size as u32);
    put_u16(room, at + 4, PRESENCE_KIND);
    put_u16(room, at + 6, p.count as u16);
    put_digest(room, at + 8, &x[key..key_end]);
    put_digest(room, at + 40, &x[value..value_end]);
    put_steps(room, at + PRESENCE_HEAD, x, p.path, p.count);
}

// How many bytes our record of a neighbour has, 0 where there is nobody.
fn neighbour_size(p: Option<Shown>) -> usize
    requires { ForSome p (λ shown. shown.count ≤ 256) }
    ensures { result ≡ size_of p }
{
    match p {
        Some(shown) => presence_size(shown),
        None => 0,
    }
}

// Writes our record of a neighbour, where there is somebody.
fn put_neighbour(room: &mut [u8], at: usize, x: &[u8], p: Option<Shown>)
    requires { ReadyOr x.now p × (at + size_of p ≤ length room.old) }
    ensures { room.new ≡ written at (neighbour_bytes (own_neighbour sha256 (shown_in x.now p))) room.old }
{
    let Some(shown) = p else {
        return;
    };
    put_presence(room, at, x, shown);
}

fn flag(p: Option<Shown>, bit: u16) -> u16
    ensures { result ≡ flag_of p bit }
{
    match p {
        Some(_) => bit,
        None => 0,
    }
}

// How many bytes our record of a non-existence proof has.
pub fn absence_size(a: Absent) -> usize
    requires { ForSome a.left (λ shown. shown.count ≤ 256) × ForSome a.right (λ shown. shown.count ≤ 256) }
    ensures { result ≡ absent_size a }
{
    ABSENCE_HEAD + neighbour_size(a.left) + neighbour_size(a.right)
}

// Writes our record of a non-existence proof.
pub fn put_absence(room: &mut [u8], x: &[u8], a: Absent)
    requires { AbsentReady x.now a × (absent_size a ≤ length room.old) }
    ensures { room.new ≡ written 0 (absence_bytes (own_absence (absent_at x.now a))) room.old }
{
    let key = a.key;
    let key_end = a.kstop;
    let middle = a.middle;
    let left = a.left;
    let right = a.right;
    let flags = flag(left, 1) + flag(right, 2);
    let size = absence_size(a);
    let after = ABSENCE_HEAD + neighbour_size(left);
    put_u32(room, 0, size as u32);
    put_u16(room, 4, ABSENCE_KIND);
    put_u16(room, 6, flags);
    put_digest(room, 8, &x[key..key_end]);
    put_neighbour(room, ABSENCE_HEAD, &x[0..middle], left);
    put_neighbour(room, after, x, right);
}
