// The keys of a list.
use hash::put_hash;
use script::words::key;

// A word's key, where there is a word.
pub fn put_key(room: &mut [u8; 32], w: &[u8]) {
    if !w.is_empty() {
        put_hash(room, key(w));
    }
}
