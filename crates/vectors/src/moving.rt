// Moving stores over and back, document 02, request 2026-10: the desk's store in the old form, and what comes of that. No other call takes the old form, so
// it stands in a room of its own.
use crate::calls::{accepted, say_root};
use digest::digest;
use script::say;
use script::words::{number, part, size};
use script_says::harmed::{below, put_byte};
use script_says::moving::{say_kind, say_made};

fn back_into(store: &[u8], target: &mut [u8]) {
    let before = digest(target);
    let no = grants::grants_back(store, target);
    if accepted(no, before, target) {
        say_kind(target);
    }
}

// back SIZE
pub fn back(l: &[u8], store: &[u8]) -> Option<()> {
    let mut room = [9u8; 2712];
    let target = room.get_mut(..size(part(l, 1, b' '))?)?;
    say::line(b"  came  back, target ", part(l, 1, b' '), b" bytes: ");
    back_into(store, target);
    Some(())
}

// Whether the old bytes come back, and a root of the new ones.
fn say_again(source: &[u8], target: &[u8], version: u32) {
    let mut room = [9u8; 2424];
    let no = grants::grants_back(target, &mut room);
    say::text(b", back again ");
    say_made(no, digest(source), &room);
    say::text(b", root ");
    let mut root = [0u8; 32];
    let found = grants::grants_root(target, version, &mut root);
    say_root(found, &root);
}

fn over_into(store: &[u8], source: &[u8], target: &mut [u8], version: u32) {
    let before = digest(target);
    let no = grants::grants_over(source, target);
    if accepted(no, before, target) {
        say_made(no, digest(store), target);
        say_again(source, target, version);
    }
}

// over AT BYTE FROM SIZE VERSION
pub fn over(l: &[u8], store: &[u8]) -> Option<()> {
    let at = below(part(l, 1, b' '), 2424)?;
    let byte = below(part(l, 2, b' '), 256)?;
    let from = below(part(l, 3, b' '), 2425)?;
    let mut room = [9u8; 2712];
    let target = room.get_mut(..size(part(l, 4, b' '))?)?;
    let version = number(part(l, 5, b' '))?;
    let mut old = [0u8; 2424];
    if grants::grants_back(store, &mut old) != 0 {
        return None;
    }
    say::line(b"  came  over, byte ", part(l, 1, b' '), b" made ");
    say::line(part(l, 2, b' '), b", source ", part(l, 3, b' '));
    say::line(b" bytes, target ", part(l, 4, b' '), b" bytes: ");
    put_byte(&mut old, at, byte as u8);
    over_into(store, old.get(..from)?, target, version);
    Some(())
}
