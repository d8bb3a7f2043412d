// A batch by words: 010=2 inserts the key that begins 010 with 32 bytes 2, -010 deletes it, *n inserts the first n numbered keys; and the root of the
// tree of the grants that a batch inserts, as document 01 defines it.
ghost use Rattle.std.specs.Prelude.{◌≤◌, length, IfSome};

use crate::words::{is_key, key, number, part, size};
use fields::put_u32;
use hash::{Hash, hash_at, no_hash, put_hash};
use nodehash::{grant_hash, inner_hash};
use place::key_bit;

// A record of a batch.
pub type Record = [u8; 72];

// What a record asks for its key.
#[derive(Clone, Copy)]
enum Ask {
    Insert(Hash),
    Delete,
}

// Length and kind, two zero bytes, the key, and the value or zeros.
fn put(record: &mut Record, key: Hash, ask: Ask) {
    let (length, kind, value) = match ask {
        Ask::Insert(value) => (72, 1, value),
        Ask::Delete => (40, 2, no_hash()),
    };
    put_u32(record, 0, length);
    put_u32(record, 4, kind);
    put_hash(&mut record[8..40], key);
    put_hash(&mut record[40..72], value);
}

// An insert of a value of 32 such bytes.
fn insert(byte: u8) -> Ask {
    let word = byte as u64 * 0x0101_0101_0101_0101;
    Ask::Insert(Hash {
        a: word,
        b: word,
        c: word,
        d: word,
    })
}

// Writes the record that a word says.
fn put_word(record: &mut Record, w: &[u8]) -> Option<()> {
    let gone = part(w, 1, b'-');
    if !gone.is_empty() {
        put(record, key(gone), Ask::Delete);
        return is_key(gone).then_some(());
    }
    let k = part(w, 0, b'=');
    let value = number(part(w, 1, b'='))?;
    if 256 <= value {
        return None;
    }
    put(record, key(k), insert(value as u8));
    is_key(k).then_some(())
}

// The i-th numbered key, i up to 1,024: its first ten bits are i. The last one has those of the one before it and its last bit set.
fn numbered(i: usize) -> Hash {
    let (first, last) = if i < 1024 { (i as u64, 0) } else { (1023, 1) };
    Hash {
        a: first << 54,
        b: 0,
        c: 0,
        d: last,
    }
}

// Numbered keys from the first on, each with value 1.
fn fill(batch: &mut [Record]) {
    for (i, record) in batch.iter_mut().enumerate() {
        put(record, numbered(i), insert(1));
    }
}

// A record for each word after the first, at most 1,024, and how many they are.
fn put_words(words: &[u8], batch: &mut [Record; 1025]) -> Option<usize>
    ensures { IfSome result (λ n. n ≤ 1024) }
{
    let mut n = 0;
    for w in words.split(|b| *b == b' ').skip(1) {
        if w.is_empty() {
            break;
        }
        if n == 1024 {
            return None;
        }
        put_word(&mut batch[n], w)?;
        n += 1;
    }
    Some(n)
}

// Writes the batch that words after the first say, and answers how many records it has.
pub fn written(words: &[u8], batch: &mut [Record; 1025]) -> Option<usize>
    ensures { IfSome result (λ n. n ≤ 1025) }
{
    let Some(many) = size(part(part(words, 1, b' '), 1, b'*')).filter(|many| *many <= 1025) else {
        return put_words(words, batch);
    };
    fill(&mut batch[..many]);
    Some(many)
}

// Bit b of a record's key; false where a key has no such bit.
fn bit(record: &Record, b: usize) -> bool {
    b < 256 && key_bit(&record[8..40], b)
}

// The first record whose key has a 1 there; the end where none has.
fn first_right(records: &[Record], b: usize) -> usize
    ensures { result ≤ length records.now }
{
    for (i, record) in records.iter().enumerate() {
        if bit(record, b) {
            return i;
        }
    }
    records.len()
}

// The hash of the leaf of a record.
fn leaf(record: &Record) -> Hash {
    grant_hash(hash_at(record, 8), hash_at(record, 40))
}

// The hash of the node that the grants of these records, ascending and alike in the bits before, have there, with so many bits left: no grant,
// no node; one, a leaf; two or more, an inner node.
pub fn root(records: &[Record], left: usize) -> Hash {
    match records {
        [] => no_hash(),
        [record] => leaf(record),
        _ => {
            if left == 0 || 256 < left {
                return no_hash();
            }
            let middle = first_right(records, 256 - left);
            let l = root(&records[..middle], left - 1);
            let r = root(&records[middle..], left - 1);
            inner_hash(l, r)
        }
    }
}
