// A guess at the slot of each child that a record names, from a row of the slots in order. Nothing is promised of the guess but that it is
// made; who uses it looks at what it gives. The children on one side stand in the order of their parents where the store is sound, so the
// search for one goes on from where the last one ended.
#![tactic(auto)]

ghost use Rattle.std.specs.Prelude.{◌≤◌, ◌<◌, length};
ghost use Rattle.check_pass.specs.Passes.{Room};

use hash::{Hash, hash_at};
use layout::sizes::{INNER_BITS, LEAF_KIND};
use slots::bits_of;
use store::{child_version_at, count_at, kind_at, slot_of, version_at, wide};
use terms::Form;

// A node to look for: the bit count and the bits of its place, and its version.
#[derive(Clone, Copy)]
struct Node {
    count: u16,
    bits: Hash,
    version: u32,
}

// Whether slot i stands before a node; a slot that isn't there doesn't.
fn stands_before(form: Form, store: &[u8], n: usize, i: usize, node: Node) -> bool
    requires { Room form store.now n }
{
    if n <= i {
        return false;
    }
    let count = count_at(form, store, i);
    let bits = hash_at(bits_of(slot_of(form, store, i)), 0);
    let version = version_at(form, store, i);
    if count != node.count {
        return count < node.count;
    }
    let its = node.bits;
    if bits.a != its.a {
        return bits.a < its.a;
    }
    if bits.b != its.b {
        return bits.b < its.b;
    }
    if bits.c != its.c {
        return bits.c < its.c;
    }
    if bits.d != its.d {
        return bits.d < its.d;
    }
    version < node.version
}

// The first of a row's slots that does not stand before a node, by halving; their number where there is none.
fn halved(form: Form, store: &[u8], n: usize, order: &[u16], node: Node) -> usize
    requires { Room form store.now n }
    ensures { result ≤ length order.now }
{
    let mut low = 0;
    let mut high = order.len();
    // By hand: `partition_point` compares once more in a short row, and check took longer by two in a hundred.
    while low < high {
        let middle = low + (high - low) / 2;
        if stands_before(form, store, n, wide(order[middle]), node) {
            low = middle + 1;
        } else {
            high = middle;
        }
    }
    low
}

// The same by steps that double and then by halving.
fn galloped(form: Form, store: &[u8], n: usize, order: &[u16], node: Node) -> usize
    requires { Room form store.now n }
    ensures { result ≤ length order.now }
{
    let mut low = 0;
    let mut high = 0;
    let mut step = 1;
    // Doubling, which is no count.
    while high < order.len() {
        if !stands_before(form, store, n, wide(order[high]), node) {
            return low + halved(form, store, n, &order[low..high], node);
        }
        low = high + 1;
        high = high + step;
        step = step + step;
    }
    low + halved(form, store, n, &order[low..], node)
}

// The same, looked for from a finger on; those before it are searched where the finger is too far.
fn searched(form: Form, store: &[u8], n: usize, order: &[u16], finger: usize, node: Node) -> usize
    requires { Room form store.now n × (finger ≤ length order.now) }
    ensures { result ≤ length order.now }
{
    let (passed, rest) = order.split_at(finger);
    if let Some((last, others)) = passed.split_last() {
        if !stands_before(form, store, n, wide(*last), node) {
            return halved(form, store, n, others, node);
        }
    }
    finger + galloped(form, store, n, rest, node)
}

// The bits of a place of `count` bits, with a bit set behind them.
fn with_bit(bits: Hash, count: u16) -> Hash {
    let bit = 0x8000_0000_0000_0000 >> count % 64;
    let mut next = bits;
    if count < 64 {
        next.a = next.a | bit;
        return next;
    }
    if count < 128 {
        next.b = next.b | bit;
        return next;
    }
    if count < 192 {
        next.c = next.c | bit;
        return next;
    }
    next.d = next.d | bit;
    next
}

// The bits of a place, one bit longer on a side.
fn longer(bits: Hash, count: u16, right: bool) -> Hash {
    if right {
        return with_bit(bits, count);
    }
    bits
}

// Where the guess for one side of slot j stands.
fn guess_at(j: usize, right: bool) -> usize
    requires { j < 65536 }
    ensures { result < 131072 }
{
    if right {
        return 2 * j + 1;
    }
    2 * j
}

// The guess for one side of slot j, and the finger from there on.
fn guess_side(
    form: Form,
    store: &[u8],
    n: usize,
    order: &[u16],
    finger: usize,
    j: usize,
    right: bool,
    guess: &mut [u16; 32768],
) -> usize
    requires { Room form store.now n × (finger ≤ length order.now) × (j < 65536) }
    ensures { result ≤ length order.now }
{
    if n <= j {
        return finger;
    }
    let kind = kind_at(form, store, j);
    let count = count_at(form, store, j);
    let version = child_version_at(form, store, j, right);
    if kind <= LEAF_KIND {
        return finger;
    }
    if INNER_BITS < count {
        return finger;
    }
    if version == 0 {
        return finger;
    }
    let its = hash_at(bits_of(slot_of(form, store, j)), 0);
    let bits = longer(its, count, right);
    let node = Node {
        count: count + 1,
        bits,
        version,
    };
    let found = searched(form, store, n, order, finger, node);
    if let Some(slot) = order.get(found) {
        if let Some(kid) = guess.get_mut(guess_at(j, right)) {
            *kid = *slot;
        }
    }
    found
}

// Two guesses for each slot of the row: for its left child and for its right.
pub fn guessed(form: Form, store: &[u8], n: usize, order: &[u16], guess: &mut [u16; 32768])
    requires { Room form store.now n }
{
    let mut left = 0;
    let mut right = 0;
    for i in order {
        let j = wide(*i);
        left = guess_side(form, store, n, order, left, j, false, guess);
        right = guess_side(form, store, n, order, right, j, true, guess);
    }
}
