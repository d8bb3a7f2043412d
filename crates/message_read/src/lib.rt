// Reading a message, document 02, request 2026-02: our own record goes into the room, and where the raw keys and values stand into an array. Order: 10, 9.
#![tactic(auto)]

ghost use Rattle.std.specs.Prelude.{◌≡◌, ◌++◌, ◌+◌, ◌-◌, ◌≤◌, length, Some};
ghost use Rattle.std.specs.Option.{ForSome};
ghost use Rattle.terms.specs.Fields.{le};
ghost use Rattle.terms.specs.Records.{presence, absence};
ghost use Rattle.fields.specs.Written.{written};
ghost use Rattle.messages.specs.Spots.{spots_in};
ghost use Rattle.message_rules.specs.Contracts.{ReadsMessage};
ghost use Rattle.message_rules.specs.Answers.{spot_bytes, spots_bytes};
ghost use Rattle.message_leaf.specs.Shown.{presence_at};
ghost use Rattle.message_form.specs.Said.{Held, absent_at, AbsentHeld};
ghost use Rattle.message_read.specs.Reads.{Bounded, key_of, value_of, spots_of, ReadsAs};
ghost use Rattle.refusal_numbers.specs.Refusals.{number_told};

use fields::put_u32;
use message_form::{Absent, Said, says};
use message_leaf::Shown;
use message_record::{absence_size, presence_size, put_absence, put_presence};
use refusal_numbers::{Refusal, number_told};

// Writes where bytes begin and how many they are.
fn put_spot(answer: &mut [u8], at: usize, from: usize, end: usize)
    requires { (at + 8 ≤ length answer.old) × ((from ≤ end) × (end ≤ 29999)) }
    ensures { answer.new ≡ written at (le 4 from ++ le 4 (end - from)) answer.old }
{
    let size = end - from;
    put_u32(answer, at, from as u32);
    put_u32(answer, at + 4, size as u32);
}

// Writes where a leaf's key and value stand, zero where there is no leaf.
fn put_leaf(answer: &mut [u8], at: usize, leaf: Option<Shown>)
    requires { (at + 16 ≤ length answer.old) × ForSome leaf Bounded }
    ensures { answer.new ≡ written at (spot_bytes (key_of leaf) ++ spot_bytes (value_of leaf)) answer.old }
{
    let Some(shown) = leaf else {
        put_spot(answer, at, 0, 0);
        put_spot(answer, at + 8, 0, 0);
        return;
    };
    put_spot(answer, at, shown.key, shown.kstop);
    put_spot(answer, at + 8, shown.value, shown.vstop);
}

// Writes the length of the record, and where the key asked for, the first leaf and the second stand.
fn put_answer(
    answer: &mut [u8; 44],
    size: usize,
    key: usize,
    stop: usize,
    first: Option<Shown>,
    second: Option<Shown>,
)
    requires { ((size ≤ 29999) × ((key ≤ stop) × (stop ≤ 29999))) × (ForSome first Bounded × ForSome second Bounded) }
    ensures { answer.new ≡ le 4 size ++ spots_bytes (spots_of key stop first second) }
{
    put_u32(answer, 0, size as u32);
    put_spot(answer, 4, key, stop);
    put_leaf(answer, 12, first);
    put_leaf(answer, 28, second);
}

// Our record of a presence, if it fits the room.
fn read_presence(m: &[u8], p: Shown, room: &mut [u8], answer: &mut [u8; 44]) -> Result<(), Refusal>
    requires { Held 1 m.now 0 p × (length m.now ≤ 29999) }
    ensures { ReadsAs (presence (presence_at m.now p)) room.old answer.old (number_told result) room.new answer.new }
{
    let size = presence_size(p);
    if room.len() < size {
        return Err(Refusal::NoRoom);
    }
    put_presence(room, 0, m, p);
    put_answer(answer, size, p.key, p.kstop, Some(p), None);
    Ok(())
}

// The leaves of an absence: the left one first, where it is there.
fn put_leaves(answer: &mut [u8; 44], size: usize, m: &[u8], a: Absent)
    requires { AbsentHeld m.now a × ((length m.now ≤ 29999) × (size ≤ 29999)) }
    ensures { answer.new ≡ le 4 size ++ spots_bytes (spots_in (absence (absent_at m.now a))) }
{
    match a.left {
        Some(left) => put_answer(answer, size, a.key, a.kstop, Some(left), a.right),
        None => put_answer(answer, size, a.key, a.kstop, a.right, None),
    }
}

// Our record of an absence, if it fits the room.
fn read_absence(m: &[u8], a: Absent, room: &mut [u8], answer: &mut [u8; 44]) -> Result<(), Refusal>
    requires { AbsentHeld m.now a × (length m.now ≤ 29999) }
    ensures { ReadsAs (absence (absent_at m.now a)) room.old answer.old (number_told result) room.new answer.new }
{
    let size = absence_size(a);
    if room.len() < size {
        return Err(Refusal::NoRoom);
    }
    put_absence(room, m, a);
    put_leaves(answer, size, m, a);
    Ok(())
}

// Reads a message into the room; answer: the record's length, then where the raw key asked for, and raw key and value of the leaf shown or the left of two and
// of the right of two, stand in the message: offset and length each, 4 bytes little-endian, zero where there is none.
pub fn grants_ics23_read(message: &[u8], room: &mut [u8], answer: &mut [u8; 44]) -> u32
    ensures { ReadsMessage message.now room.old answer.old result room.new answer.new }
{
    match says(message) {
        None => Refusal::NotInForm.number(),
        Some(Said::Presence(p)) => number_told(read_presence(message, p, room, answer)),
        Some(Said::Absence(a)) => number_told(read_absence(message, a, room, answer)),
    }
}
