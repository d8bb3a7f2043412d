// What a forged proof would cost, document 02, request 2026-12: what is found of a proof. With SHA-256 no accepted proof is false, so nothing is found.
use crate::calls::{asks, word};
use digest::digest;
use script::say;
use script::words::{number, size};
use script_says::forged::say_all;

fn find(store: &[u8], version: u32, key: &[u8], proof: &[u8]) {
    let mut finding = [9u8; 131];
    let before = digest(&finding);
    let no = grants::grants_finding(store, version, key, proof, &mut finding);
    say_all(no, before, &finding);
}

// finding NAME: VERSION KEY FROM SIZE LENGTH; the proof for the key is that of another version, or zero bytes where that
// has none.
pub fn finding(l: &[u8], store: &[u8]) -> Option<()> {
    let from = number(word(l, 3))?;
    let cut = size(word(l, 4)).filter(|n| *n <= 32)?;
    let length = size(word(l, 5)).filter(|n| *n <= 17080)?;
    let (version, key) = asks(b"  came  finding ", l)?;
    say::line(b", key of ", word(l, 4), b" bytes, ");
    say::line(word(l, 5), b" bytes of its proof in ", word(l, 3));
    say::text(b": ");
    let mut room = [0u8; 17080];
    let mut proved = [0u8; 4];
    grants::grants_prove(store, from, &key, &mut room, &mut proved);
    find(store, version, &key[..cut], room.get(..length)?);
    Some(())
}
