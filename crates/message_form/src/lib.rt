// What a message says, by where its parts stand, document 02, request 2026-02: a presence, an absence, or nothing (10). Any bytes may be handed in.
#![tactic(auto)]

ghost use Rattle.std.specs.Prelude.{◌≤◌, length};
ghost use Rattle.message_form.specs.Said.{Neighbours, Follows, Absents, Alone, Says};

use message_fields::field;
use message_leaf::{MOST_KEY, Shown, existence, length_right};

// A neighbour, where the next field is its, and where the bytes after it begin.
#[derive(Clone, Copy)]
pub struct Neighbour {
    pub next: usize,
    pub shown: Option<Shown>,
}

// A non-existence proof: where its key begins and ends, where the left neighbour ends, and the neighbours.
#[derive(Clone, Copy)]
pub struct Absent {
    pub key: usize,
    pub kstop: usize,
    pub middle: usize,
    pub left: Option<Shown>,
    pub right: Option<Shown>,
}

// What a message says.
#[derive(Clone, Copy)]
pub enum Said {
    Presence(Shown),
    Absence(Absent),
}

// The neighbour of field n from there on.
fn beside(x: &[u8], at: usize, n: u8) -> Option<Neighbour>
    requires { (at ≤ length x.now) × (n ≤ 15) }
    ensures { Neighbours n x.now at result }
{
    let nobody = Neighbour {
        next: at,
        shown: None,
    };
    if x.len() <= at {
        return Some(nobody);
    }
    if x[at] != 8 * n + 2 {
        return Some(nobody);
    }
    let part = field(x, at, n)?;
    let shown = existence(&x[0..part.to], part.from)?;
    Some(Neighbour {
        next: part.to,
        shown: Some(shown),
    })
}

// The neighbours from there on, of a key that stands before them.
fn neighbours(x: &[u8], key: usize, at: usize) -> Option<Absent>
    requires { at ≤ length x.now }
    ensures { Follows x.now key at result }
{
    let left = beside(x, at, 2)?;
    let right = beside(x, left.next, 3)?;
    if right.next != x.len() {
        return None;
    }
    if left.shown.is_none() && right.shown.is_none() {
        return None;
    }
    Some(Absent {
        key: key,
        kstop: at,
        middle: left.next,
        left: left.shown,
        right: right.shown,
    })
}

// The non-existence proof from there on to the end.
fn nonexistence(x: &[u8], at: usize) -> Option<Absent>
    requires { at ≤ length x.now }
    ensures { Absents x.now at result }
{
    let key = field(x, at, 1)?;
    if !length_right(key.from, key.to, MOST_KEY) {
        return None;
    }
    neighbours(x, key.from, key.to)
}

// Where the bytes of field n begin, if it is all that there is.
fn alone(m: &[u8], n: u8) -> Option<usize>
    requires { n ≤ 15 }
    ensures { Alone n m.now result }
{
    let part = field(m, 0, n)?;
    if part.to != m.len() {
        return None;
    }
    Some(part.from)
}

// What the bytes say as a message.
pub fn says(m: &[u8]) -> Option<Said>
    ensures { Says m.now result }
{
    if m.len() == 0 {
        return None;
    }
    if m[0] == 10 {
        let from = alone(m, 1)?;
        let shown = existence(m, from)?;
        return Some(Said::Presence(shown));
    }
    let from = alone(m, 2)?;
    let absent = nonexistence(m, from)?;
    Some(Said::Absence(absent))
}
