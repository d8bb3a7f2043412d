// Rescue from a damaged store, document 02, request 2026-08: what comes back in a second buffer.
use crate::calls::{accepted, say_root};
use digest::digest;
use script::words::{number, part, size};
use script::{held, say};
use script_says::damaged::say_report;

// What the target holds: its slots, whether it is sound, the root of its latest version.
fn say_target(target: &[u8], latest: u32) {
    held::say_slots(target, None);
    say::choice(
        grants::grants_check(target) == 0,
        b"        sound, root ",
        b"        NOT SOUND, root ",
    );
    let mut root = [0u8; 32];
    let no = grants::grants_root(target, latest, &mut root);
    say_root(no, &root);
}

fn rescue_into(store: &[u8], oldest: u32, latest: u32, target: &mut [u8]) {
    let before = digest(target);
    let mut answer = [0u8; 16];
    let no = grants::grants_rescue(store, oldest, latest, target, &mut answer);
    if accepted(no, before, target) {
        say_report(&answer);
        say_target(target, latest);
    }
}

// rescue OLDEST LATEST SIZE
pub fn rescue(l: &[u8], store: &[u8]) -> Option<()> {
    let oldest = number(part(l, 1, b' '))?;
    let latest = number(part(l, 2, b' '))?;
    let mut all = [0u8; 17080];
    let target = all.get_mut(..size(part(l, 3, b' '))?)?;
    say::line(b"  came  rescue from ", part(l, 1, b' '), b" to ");
    say::line(part(l, 2, b' '), b", target ", part(l, 3, b' '));
    say::text(b" bytes: ");
    rescue_into(store, oldest, latest, target);
    Some(())
}
