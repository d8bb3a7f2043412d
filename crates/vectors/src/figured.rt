// The figures of a range, document 02, request 2026-14: the call, and what it gives.
use crate::calls::accepted;
use digest::digest;
use script::say;
use script::words::{number, part, size};
use script_says::figured::say_front;

fn figures_into(store: &[u8], first: u32, last: u32, room: &mut [u8]) {
    let before = digest(room);
    let mut totals = [0u8; 8];
    let no = grants::grants_figures(store, first, last, room, &mut totals);
    if accepted(no, before, room) {
        say_front(room, first, last, &totals);
    }
}

// figures FIRST LAST ROOM
pub fn figures(l: &[u8], store: &[u8]) -> Option<()> {
    let first = number(part(l, 1, b' '))?;
    let last = number(part(l, 2, b' '))?;
    let mut all = [0u8; 17080];
    let room = all.get_mut(..size(part(l, 3, b' '))?)?;
    say::line(b"  came  figures ", part(l, 1, b' '), b" to ");
    say::line(part(l, 2, b' '), b", buffer ", part(l, 3, b' '));
    say::text(b" bytes: ");
    figures_into(store, first, last, room);
    Some(())
}
