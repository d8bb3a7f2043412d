// What the slots of a store hold, read byte by byte as document 01 has it. A store of n slots has 24 + 128n bytes.
ghost use Rattle.std.specs.Prelude.{◌≤◌};

use crate::say;
use fields::{get_u16, get_u32};

type Slot = [u8; 128];

// The slots of a store: all that stands after its header.
fn slots(store: &[u8]) -> &[Slot] {
    let Some(all) = store.get(24..) else {
        return &[];
    };
    all.as_chunks().0
}

// What a record is, by the number of its kind.
#[derive(Clone, Copy, PartialEq, Eq)]
enum Kind {
    Leaf,
    Inner,
    Other,
}

impl Kind {
    fn of(slot: &Slot) -> Kind {
        match get_u16(slot, 4) {
            2 => Kind::Leaf,
            5 => Kind::Inner,
            _ => Kind::Other,
        }
    }
}

// How many bits the place in a slot has.
fn bits(slot: &Slot) -> u16 {
    get_u16(slot, 6)
}

// Bit b of the place in a slot: bit 0 is the top bit of the first byte. A place has no more than 256.
fn bit(slot: &Slot, b: u16) -> bool {
    let b = b as usize;
    if 256 <= b {
        return false;
    }
    (slot[8 + b / 8] >> 7 - b % 8) % 2 == 1
}

// The version that made the record in a slot; 0 in a free one.
fn version(slot: &Slot) -> u32 {
    get_u32(slot, 40)
}

// A used slot: its number, leaf or inner, its place.
fn say_slot(i: usize, slot: &Slot) {
    say::text(b"  slot ");
    say::count(i);
    say::choice(Kind::of(slot) == Kind::Leaf, b" leaf ", b" inner ");
    let n = bits(slot);
    say::choice(n == 0, b"root", b"");
    for b in 0..n {
        say::choice(bit(slot, b), b"1", b"0");
    }
}

// The slots that hold a record of the version named; of any, where none is.
pub fn say_slots(store: &[u8], named: Option<u32>) {
    say::text(b"      ");
    for (i, slot) in slots(store).iter().enumerate() {
        let made = version(slot);
        if made != 0 && named.is_none_or(|v| v == made) {
            say_slot(i, slot);
        }
    }
    say::text(b"\n");
}

// How many records were retired since a version.
pub fn retired_since(store: &[u8], version: u32) -> usize {
    slots(store)
        .iter()
        .filter(|slot| get_u32(*slot, 44) == version)
        .count()
}

// How many records are of this kind, with places of so many bits.
fn counted(store: &[u8], kind: Kind, long: u16) -> usize {
    slots(store)
        .iter()
        .filter(|slot| Kind::of(*slot) == kind && bits(*slot) == long)
        .count()
}

// How many bit counts below 256 have one inner node.
fn inner_levels(store: &[u8]) -> usize
    ensures { result ≤ 256 }
{
    let mut n = 0;
    for long in 0..256 {
        if counted(store, Kind::Inner, long) == 1 {
            n += 1;
        }
    }
    n
}

// How deep the records lie: the leaves with places of 256 bits, the levels with an inner node, and with that of those leaves.
pub fn say_levels(store: &[u8]) {
    let leaves = counted(store, Kind::Leaf, 256);
    let inner = inner_levels(store);
    say::text(b"leaves at 256 bits: ");
    say::count(leaves);
    say::text(b", levels with an inner node: ");
    say::count(inner);
    say::text(b", levels in all: ");
    say::count(inner + usize::from(leaves != 0));
    say::text(b"\n");
}
