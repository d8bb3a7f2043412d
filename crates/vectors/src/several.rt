// Several proofs in one call, document 02, request 2026-04: the list of keys, and the proofs cut apart by their own lengths.
use crate::calls::{Profile, number_in, verify, word, written};
use digest::digest;
use script::say;
use script::words::{key, number, part, rest, size};
use script_says::calls::bytes_of;
use script_says::several::put_key;

// Shows the proof that begins the rest of the proofs, by its own length, and answers what comes after it.
fn shown<'a>(store: &[u8], version: u32, key: &[u8; 32], proofs: &'a [u8]) -> &'a [u8] {
    let Some((length, _)) = proofs.split_first_chunk() else {
        return &[];
    };
    let n = number_in(length) as usize;
    if proofs.len() < n {
        say::text(b"        CUT SHORT\n");
        return &[];
    }
    say::text(b"        ");
    verify(Profile::Whole, store, version, key, &proofs[..n]);
    &proofs[n..]
}

fn show(keys: &[&[u8]; 3], store: &[u8], version: u32, proofs: &[u8]) {
    say::text(b"length ");
    say::count(proofs.len());
    say::text(b"\n");
    let mut left = proofs;
    for w in keys {
        if !w.is_empty() {
            left = shown(store, version, &bytes_of(key(w)), left);
        }
    }
}

fn ask(keys: &[&[u8]; 3], store: &[u8], version: u32, list: &[u8], room: &mut [u8]) {
    let before = digest(room);
    let mut length = [0u8; 4];
    let no = grants::grants_palette(store, version, list, room, &mut length);
    if let Some(proofs) = written(no, before, room, &length) {
        show(keys, store, version, proofs);
    }
}

// palette NAME: VERSION ROOM SIZE KEYS
pub fn palette(l: &[u8], store: &[u8]) -> Option<()> {
    let version = number(word(l, 1))?;
    let mut all = [0u8; 17080];
    let room = all.get_mut(..size(word(l, 2))?)?;
    let n = size(word(l, 3)).filter(|n| *n <= 96)?;
    say::line(
        b"  came  palette ",
        rest(part(l, 0, b':'), b' '),
        b" in version ",
    );
    say::line(word(l, 1), b", list ", word(l, 3));
    say::line(b" bytes, buffer ", word(l, 2), b" bytes: ");
    let keys = [word(l, 4), word(l, 5), word(l, 6)];
    let mut list = [[0u8; 32]; 3];
    for (place, w) in list.iter_mut().zip(keys) {
        put_key(place, w);
    }
    ask(&keys, store, version, list.as_flattened().get(..n)?, room);
    Some(())
}
