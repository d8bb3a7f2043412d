// What is written to standard output: words, numbers and hashes in hex.
use hash::Hash;

pub fn text(words: &[u8]) {
    io::write_all(1, words);
}

pub fn count(n: usize) {
    io::print_decimal(1, n as u64);
}

pub fn hex(h: Hash) {
    io::print_hex(1, h.a, 16);
    io::print_hex(1, h.b, 16);
    io::print_hex(1, h.c, 16);
    io::print_hex(1, h.d, 16);
}

pub fn choice(yes: bool, one: &[u8], other: &[u8]) {
    if yes {
        text(one);
    } else {
        text(other);
    }
}

// A line: what stands before the words, the words, and what stands after them.
pub fn line(front: &[u8], words: &[u8], end: &[u8]) {
    text(front);
    text(words);
    text(end);
}
