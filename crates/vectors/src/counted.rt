// How many grants, and the grant at a position, document 02, request 2026-09.
use script::say;
use script::words::{number, part};
use script_says::counted::{say_count, say_grant};

// count VERSION
pub fn count(l: &[u8], store: &[u8]) -> Option<()> {
    let version = number(part(l, 1, b' '))?;
    say::line(b"  came  grants in version ", part(l, 1, b' '), b": ");
    let mut count = [0u8; 8];
    let no = grants::grants_count(store, version, &mut count);
    say_count(no, &count);
    Some(())
}

// at VERSION POSITION
pub fn at(l: &[u8], store: &[u8]) -> Option<()> {
    let version = number(part(l, 1, b' '))?;
    let position = number(part(l, 2, b' '))?;
    say::line(b"  came  position ", part(l, 2, b' '), b" in version ");
    say::line(part(l, 1, b' '), b": ", b"");
    let mut grant = [0u8; 64];
    let no = grants::grants_at(store, version, position as u64, &mut grant);
    say_grant(no, &grant);
    Some(())
}
