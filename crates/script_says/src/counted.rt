// A number of grants and a grant at a position in words.
use crate::calls::refused_read;
use fields::get_u32;
use hash::hash_at;
use script::say;

// A number of 64 bits, by its two halves.
pub fn say_count(no: u64, count: &[u8; 8]) {
    if no != 0 {
        refused_read(no, b"\n");
        return;
    }
    let low = get_u32(count, 0) as usize;
    let high = get_u32(count, 4) as usize;
    say::count(high * 4294967296 + low);
    say::text(b"\n");
}

pub fn say_grant(no: u64, grant: &[u8; 64]) {
    if no != 0 {
        refused_read(no, b"\n");
        return;
    }
    say::text(b"key ");
    say::hex(hash_at(grant, 0));
    say::text(b", value ");
    say::hex(hash_at(grant, 32));
    say::text(b"\n");
}
