// A hash as four numbers: read from a slice, written to one, compared.
#![tactic(auto)]

ghost use Rattle.std.specs.Prelude.{◌≡◌, ◌++◌, ◌+◌, ◌*◌, ◌≤◌, length, take, drop};
ghost use Rattle.terms.specs.Bits.{same_bytes};
ghost use Rattle.terms.specs.Records.{zeros};
ghost use Rattle.hash.specs.BigEndian.{big, number, word_at};
ghost use Rattle.hash.specs.Hash.{hash_bytes, hash_of};

// Thirty-two bytes, eight to a number, the top byte first.
#[derive(Clone, Copy, PartialEq, Eq)]
pub struct Hash {
    pub a: u64,
    pub b: u64,
    pub c: u64,
    pub d: u64,
}

// The word that begins at a byte.
pub fn word_at(s: &[u8], at: usize) -> u32
    requires { at + 4 ≤ length s.now }
    ensures { result ≡ word_at s.now at }
{
    u32::from_be_bytes([s[at], s[at + 1], s[at + 2], s[at + 3]])
}

// Two words as one number.
pub fn join(x: u32, y: u32) -> u64
    ensures value { result ≡ x * 4294967296 + y }
    ensures result_value { big 8 result ≡ big 4 x ++ big 4 y }
{
    x as u64 * 0x1_0000_0000 + y as u64
}

fn number_at(s: &[u8], at: usize) -> u64
    requires { at + 8 ≤ length s.now }
    ensures { result ≡ number (take 8 (drop at s.now)) }
{
    join(word_at(s, at), word_at(s, at + 4))
}

// The hash whose bytes begin at a byte of the slice.
pub fn hash_at(s: &[u8], at: usize) -> Hash
    requires { at + 32 ≤ length s.now }
    ensures value { result ≡ hash_of (take 32 (drop at s.now)) }
    ensures result_value { hash_bytes result ≡ take 32 (drop at s.now) }
{
    Hash {
        a: number_at(s, at),
        b: number_at(s, at + 8),
        c: number_at(s, at + 16),
        d: number_at(s, at + 24),
    }
}

fn put_number(s: &mut [u8], at: usize, x: u64)
    requires { at + 8 ≤ length s.old }
    ensures { s.new ≡ take at s.old ++ (big 8 x ++ drop (at + 8) s.old) }
{
    s[at..at + 8].copy_from_slice(&x.to_be_bytes());
}

// Writes the 32 bytes at the front.
pub fn put_hash(s: &mut [u8], h: Hash)
    requires { 32 ≤ length s.old }
    ensures { s.new ≡ hash_bytes h ++ drop 32 s.old }
{
    put_number(s, 0, h.a);
    put_number(s, 8, h.b);
    put_number(s, 16, h.c);
    put_number(s, 24, h.d);
}

// Whether two hashes have the same bytes.
pub fn same_hash(x: Hash, y: Hash) -> bool
    ensures { result ≡ same_bytes (hash_bytes x) (hash_bytes y) }
{
    x == y
}

// 32 zero bytes, which stand for a child that is missing and for the root of no grants.
pub fn no_hash() -> Hash
    ensures { hash_bytes result ≡ zeros }
{
    Hash {
        a: 0,
        b: 0,
        c: 0,
        d: 0,
    }
}

pub fn is_zero(h: Hash) -> bool
    ensures { result ≡ same_bytes (hash_bytes h) zeros }
{
    same_hash(h, no_hash())
}
