// The batch as bytes, document 01, 'Bytes': specs/ says what they ask for, proofs/ that they go there and back. The code here reads a record.
#![tactic(auto)]

ghost use Rattle.std.specs.Prelude.{◌≡◌, true, ◌++◌, ◌<◌, length};
ghost use Rattle.terms.specs.Records.{ask_key};
ghost use Rattle.batch.specs.Sizes.{record_size};
ghost use Rattle.batch.specs.Batch.{count};
ghost use Rattle.batch.specs.Records.{record_at, ask_at, ask_value, inserts};

// Batch record, 72 bytes: length 72 and kind 1 (insert) or length 40 and kind 2 (delete), 2 zero, key 32, value 32 (zero for delete).
pub const RECORD_SIZE: usize = 72;

const KEY_AT: usize = 8;

const KEY_SIZE: usize = 32;

// Key and value.
const GRANT_SIZE: usize = 64;

// Record i of a batch, where it lies.
pub fn record_at(b: &[u8], i: usize) -> &[u8]
    requires { i < count b.now }
    ensures { (result.now ≡ record_at i b.now) × (length result.now ≡ record_size) }
{
    let at = RECORD_SIZE * i;
    let end = at + RECORD_SIZE;
    &b[at..end]
}

// How many whole records a batch has.
pub fn record_count(b: &[u8]) -> usize
    ensures { result ≡ count b.now }
{
    b.len() / RECORD_SIZE
}

// The key of record i, where it lies.
pub fn key(b: &[u8], i: usize) -> &[u8]
    requires { i < count b.now }
    ensures { (result.now ≡ ask_key (ask_at i b.now)) × (length result.now ≡ 32) }
{
    let at = RECORD_SIZE * i + KEY_AT;
    let end = at + KEY_SIZE;
    &b[at..end]
}

// The key and the value of an insert, which lie next to each other.
pub fn grant(b: &[u8], i: usize) -> &[u8]
    requires { (i < count b.now) × (inserts (ask_at i b.now) ≡ true) }
    ensures { (result.now ≡ ask_key (ask_at i b.now) ++ ask_value (ask_at i b.now)) × (length result.now ≡ 64) }
{
    let at = RECORD_SIZE * i + KEY_AT;
    let end = at + GRANT_SIZE;
    &b[at..end]
}
