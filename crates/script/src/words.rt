// The words of a line, and the numbers and keys that they are.
ghost use Rattle.std.specs.Prelude.{◌<◌, IfSome};

use hash::{Hash, no_hash};

// Part n between such bytes, empty where there is none.
pub fn part(s: &[u8], n: usize, by: u8) -> &[u8] {
    s.split(|b| *b == by).nth(n).unwrap_or(&[])
}

// All that stands after the first such byte.
pub fn rest(s: &[u8], by: u8) -> &[u8] {
    s.splitn(2, |b| *b == by).nth(1).unwrap_or(&[])
}

// The number of at most 32 bits that digits are, in decimal or in a smaller base; 0 where there are none.
fn number_in(base: u32, w: &[u8]) -> Option<u32> {
    let mut n: u32 = 0;
    for b in w {
        let digit = u32::from(b.checked_sub(b'0')?);
        if base <= digit {
            return None;
        }
        n = n.checked_mul(base)?.checked_add(digit)?;
    }
    Some(n)
}

// The number of at most 32 bits that a word is in decimal.
pub fn number(w: &[u8]) -> Option<u32> {
    if w.is_empty() { None } else { number_in(10, w) }
}

// The same number, as a size.
pub fn size(w: &[u8]) -> Option<usize>
    ensures { IfSome result (λ n. n < 4294967296) }
{
    Some(number(w)? as usize)
}

// The number that bits are; 2^32, which no 32 bits are, where they are no bits.
fn bits(w: &[u8]) -> u64 {
    number_in(2, w).map_or(4294967296, u64::from)
}

// A key by the bits it begins with and, after a point, those it ends with; zero between them.
pub fn key(w: &[u8]) -> Hash {
    let front = part(w, 0, b'.');
    let n = front.len();
    if 64 < n {
        return no_hash();
    }
    Hash {
        a: bits(front).checked_shl(64 - n as u32).unwrap_or(0),
        b: 0,
        c: 0,
        d: bits(part(w, 1, b'.')),
    }
}

// Whether a word is a key.
pub fn is_key(w: &[u8]) -> bool {
    let front = part(w, 0, b'.');
    front.len() <= 32 && number_in(2, front).is_some() && number_in(2, part(w, 1, b'.')).is_some()
}
