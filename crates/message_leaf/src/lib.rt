// An existence proof where it stands in the bytes of a message, document 02, request 2026-02: key, value, leaf op and path. Any bytes may be handed in. What lies
// inside another message is read from the bytes up to its end, so that all places are places in the whole message.
#![tactic(auto)]

ghost use Rattle.std.specs.Prelude.{◌≡◌, ◌&&◌, ◌-◌, ◌≤◌, length, leb};
ghost use Rattle.message_leaf.specs.Shown.{Stepped, Walks, Heads, Shows};

use message_fields::{field, inner_op};
use place::same;

// No path is longer.
const MOST_STEPS: usize = 256;
// A raw key is no longer.
pub const MOST_KEY: usize = 256;
// A raw value is no longer.
pub const MOST_VALUE: usize = 4096;

// An existence proof: where its key and its value begin and end, where its path begins, and how many steps it has.
#[derive(Clone, Copy)]
pub struct Shown {
    pub key: usize,
    pub kstop: usize,
    pub value: usize,
    pub vstop: usize,
    pub path: usize,
    pub count: usize,
}

// Whether an inner op is one of ours.
fn is_step(x: &[u8]) -> bool
    ensures { Stepped x.now result }
{
    inner_op(x).is_some()
}

// How many steps there are from there on to the end, where they are a path: at most 256.
fn walk(x: &[u8], from: usize) -> Option<usize>
    requires { from ≤ length x.now }
    ensures { Walks x.now from result }
{
    let mut at = from;
    let mut count: usize = 0;
    // A cursor in bytes: each field ends where it says.
    while at < x.len() {
        if MOST_STEPS <= count {
            return None;
        }
        let part = field(x, at, 4)?;
        if !is_step(&x[part.from..part.to]) {
            return None;
        }
        at = part.to;
        count += 1;
    }
    Some(count)
}

// Whether bytes from one place to another are 1 to `most` many.
pub fn length_right(from: usize, end: usize, most: usize) -> bool
    requires { from ≤ end }
    ensures { result ≡ leb 1 (end - from) && leb (end - from) most }
{
    if end == from {
        return false;
    }
    end - from <= most
}

// Key, value and leaf op from there on; the path is not looked at, and its steps are not counted.
fn head(x: &[u8], at: usize) -> Option<Shown>
    requires { at ≤ length x.now }
    ensures { Heads x.now at result }
{
    let key = field(x, at, 1)?;
    let value = field(x, key.to, 2)?;
    let op = field(x, value.to, 3)?;
    let leaf: [u8; 9] = [8, 1, 16, 1, 24, 1, 42, 1, 1];
    if !same(&x[op.from..op.to], &leaf) {
        return None;
    }
    Some(Shown {
        key: key.from,
        kstop: key.to,
        value: value.from,
        vstop: value.to,
        path: op.to,
        count: 0,
    })
}

// The existence proof from there on to the end.
pub fn existence(x: &[u8], at: usize) -> Option<Shown>
    requires { at ≤ length x.now }
    ensures { Shows x.now at result }
{
    let h = head(x, at)?;
    if !length_right(h.key, h.kstop, MOST_KEY) {
        return None;
    }
    if !length_right(h.value, h.vstop, MOST_VALUE) {
        return None;
    }
    let count = walk(x, h.path)?;
    Some(Shown { count: count, ..h })
}
