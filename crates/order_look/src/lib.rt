// A look at a slot: how it stands to a node, by the bit count, then by the bits, then by the version.
#![tactic(auto)]

ghost use Rattle.std.specs.Prelude.{◌≡◌, ◌+◌, ◌≤◌, length, take, drop};
ghost use Rattle.hash.specs.BigEndian.{number};
ghost use Rattle.layout.specs.Slots.{version_in};
ghost use Rattle.layout.specs.Stores.{slot_in, Has};
ghost use Rattle.order_look.specs.Looks.{head_key, BytesStand, VersionsStand, Stands};

use hash::{join, word_at};
use slots::bits_of;
use std::cmp::Ordering;
use store::{count_at, slot_of, version_at, wide};
use terms::Form;

// The number that begins at a byte, eight bytes long.
fn number_at(s: &[u8], at: usize) -> u64
    requires { at + 8 ≤ length s.now }
    ensures { result ≡ number (take 8 (drop at s.now)) }
{
    join(word_at(s, at), word_at(s, at + 4))
}

// How bits stand to others, eight bytes at a time: numbers with the top byte first stand as their bytes do.
fn bits_stand(x: &[u8], y: &[u8]) -> Ordering
    requires { (length x.now ≡ 32) × (length y.now ≡ 32) }
    ensures { BytesStand result x.now y.now }
{
    for word in 0..4 {
        let a = number_at(x, 8 * word);
        let b = number_at(y, 8 * word);
        let stand = a.cmp(&b);
        if stand.is_ne() {
            return stand;
        }
    }
    Ordering::Equal
}

// How slot i stands to a node of its bit count and bits: by the version.
fn version_stands(store: &[u8], i: usize, version: u32) -> Ordering
    requires { Has Form.Counted store.now i }
    ensures { VersionsStand result (version_in (slot_in Form.Counted i store.now)) version }
{
    version_at(Form::Counted, store, i).cmp(&version)
}

// How slot i stands to a node: by the bit count, then by the bits, then by the version.
pub fn compared(store: &[u8], i: usize, count: usize, bits: &[u8], version: u32) -> Ordering
    requires { Has Form.Counted store.now i × (length bits.now ≡ 32) }
    ensures { Stands result (slot_in Form.Counted i store.now) (head_key count bits.now version) }
{
    let its = wide(count_at(Form::Counted, store, i));
    let by_count = its.cmp(&count);
    if by_count.is_ne() {
        return by_count;
    }
    let by_bits = bits_stand(bits_of(slot_of(Form::Counted, store, i)), bits);
    if by_bits.is_ne() {
        return by_bits;
    }
    version_stands(store, i, version)
}
