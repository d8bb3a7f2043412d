// Little-endian fields in lent memory, document 01, 'Bytes'. Each function reads or writes its own bytes and nothing else.
#![tactic(auto)]

ghost use Rattle.std.specs.Prelude.{◌≡◌, ◌+◌, ◌≤◌, length};
ghost use Rattle.terms.specs.Fields.{le, field, zero_bytes, all_zero};
ghost use Rattle.fields.specs.Written.{written};

// The number in the two bytes from `at` on.
pub fn get_u16(s: &[u8], at: usize) -> u16
    requires { at + 2 ≤ length s.now }
    ensures { result ≡ field at 2 s.now }
{
    u16::from_le_bytes([s[at], s[at + 1]])
}

// The number in the four bytes from `at` on.
pub fn get_u32(s: &[u8], at: usize) -> u32
    requires { at + 4 ≤ length s.now }
    ensures { result ≡ field at 4 s.now }
{
    u32::from_le_bytes([s[at], s[at + 1], s[at + 2], s[at + 3]])
}

// Writes a number in the two bytes from `at` on.
pub fn put_u16(s: &mut [u8], at: usize, x: u16)
    requires { at + 2 ≤ length s.old }
    ensures { s.new ≡ written at (le 2 x) s.old }
{
    s[at..at + 2].copy_from_slice(&x.to_le_bytes());
}

// Writes a number in the four bytes from `at` on.
pub fn put_u32(s: &mut [u8], at: usize, x: u32)
    requires { at + 4 ≤ length s.old }
    ensures { s.new ≡ written at (le 4 x) s.old }
{
    s[at..at + 4].copy_from_slice(&x.to_le_bytes());
}

// Whether all bytes of a part are zero.
pub fn all_zero(s: &[u8]) -> bool
    ensures { result ≡ all_zero s.now }
{
    s.iter().all(|x| *x == 0)
}

// Fills a part with zero bytes.
pub fn clear(s: &mut [u8])
    ensures { s.new ≡ zero_bytes (length s.old) }
{
    s.fill(0);
}

// Fills a part with the bytes of another of its length.
pub fn copy(s: &mut [u8], from: &[u8])
    requires { length from.now ≡ length s.old }
    ensures { s.new ≡ from.now }
{
    // `copy_from_slice` of a part as long as it comes would need C's memmove, and the library needs nothing but memcpy and memset.
    for i in 0..from.len() {
        s[i] = from[i];
    }
}
