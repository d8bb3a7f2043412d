// A row of records cut by their own lengths, where the paths of each begin, and an answer of one in bytes.
#![tactic(auto)]

ghost use Rattle.std.specs.Prelude.{◌≡◌, ◌∷◌, ◌<◌, ◌≤◌, length};
ghost use Rattle.hash.specs.Hash.{hash_bytes};
ghost use Rattle.terms.specs.Fields.{zero_bytes};
ghost use Rattle.verify_cut.specs.Row.{PieceEnd, GatheredAs};

use fields::{clear, get_u32};
use hash::{Hash, put_hash};
use verify_plan::paths_of;

// Where the record at a ends, by its own length, if a record begins there.
pub fn piece_end(p: &[u8], a: usize) -> Option<usize>
    requires { a ≤ length p.now }
    ensures { PieceEnd p.now a result }
{
    let rest = p.len() - a;
    if rest < 4 {
        return None;
    }
    let l = get_u32(p, a) as usize;
    if l < 4 {
        return None;
    }
    if rest < l {
        return None;
    }
    Some(a + l)
}

// Cuts the bytes into n records, and gathers where the paths of each begin; the index of its first path stands in `index`. How many paths there are, if
// the bytes are n records.
pub fn gather(p: &[u8], n: usize, at: &mut [usize; 512], index: &mut [usize; 256]) -> Option<usize>
    requires { (n ≤ 256) × (length at.old ≡ 512) × (length index.old ≡ 256) }
    ensures { GatheredAs p.now n at.new index.new result }
{
    let mut m = 0;
    let mut a = 0;
    for i in 0..n {
        let e = piece_end(p, a)?;
        let w = paths_of(&p[a..e]);
        at[m] = a + w.first;
        at[m + 1] = a + w.second;
        index[i] = m;
        m += w.many;
        a = e;
    }
    if a != p.len() {
        return None;
    }
    Some(m)
}

// Writes a number of refusal, and 33 zero bytes.
pub fn put_refusal(out: &mut [u8], number: u32)
    requires { (length out.old ≡ 34) × (number < 256) }
    ensures { out.new ≡ number ∷ zero_bytes 33 }
{
    clear(out);
    out[0] = number as u8;
}

// Writes 0, then 1 and the value.
pub fn put_value(out: &mut [u8], hash: Hash)
    requires { length out.old ≡ 34 }
    ensures { out.new ≡ 0 ∷ (1 ∷ hash_bytes hash) }
{
    out[0] = 0;
    out[1] = 1;
    put_hash(&mut out[2..34], hash);
}
