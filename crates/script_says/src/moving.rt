// A store of the old form in words.
use crate::calls::refused;
use digest::digest;
use fields::get_u16;
use hash::{Hash, same_hash};
use script::say;

// What the header of the old form says.
pub fn say_kind(old: &[u8]) {
    if old.len() < 24 {
        return;
    }
    say::text(b"accepted, its header has kind ");
    say::count(get_u16(old, 4) as usize);
    say::text(b"\n");
}

// Whether a move that gave this number made the bytes of this hash.
pub fn say_made(no: u32, wanted: Hash, bytes: &[u8]) {
    if no != 0 {
        refused(no, b"");
        return;
    }
    say::choice(
        same_hash(wanted, digest(bytes)),
        b"the same bytes",
        b"other bytes",
    );
}
