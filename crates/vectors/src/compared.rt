// What changed between two versions, document 02, request 2026-01: the call, and its list record by record.
use crate::calls::accepted;
use digest::digest;
use script::say;
use script::words::{number, part, size};
use script_says::calls::number_in;
use script_says::compared::say_front;

fn compare(store: &[u8], first: u32, second: u32, limit: u32, room: &mut [u8]) {
    let before = digest(room);
    let mut records = [0u8; 4];
    let no = grants::grants_changes(store, first, second, limit, room, &mut records);
    if accepted(no, before, room) {
        say_front(room, number_in(&records));
    }
}

// changes FIRST SECOND LIMIT ROOM
pub fn changes(l: &[u8], store: &[u8]) -> Option<()> {
    let first = number(part(l, 1, b' '))?;
    let second = number(part(l, 2, b' '))?;
    let limit = number(part(l, 3, b' '))?;
    let mut all = [0u8; 17080];
    let room = all.get_mut(..size(part(l, 4, b' '))?)?;
    say::line(b"  came  changes ", part(l, 1, b' '), b" to ");
    say::line(part(l, 2, b' '), b", limit ", part(l, 3, b' '));
    say::line(b", buffer ", part(l, 4, b' '), b" bytes: ");
    compare(store, first, second, limit, room);
    Some(())
}
