// The two reads of counts at the boundary, 2026-09: each answers 0 where it is accepted, else the number of refusal, with a spoilt slot + 1 in the high half, and then it writes nothing. `grants` exports them.
#![tactic(auto)]

ghost use Rattle.std.proofs.Math.Option.{some};
ghost use Rattle.std.specs.Prelude.{◌≡◌, ◌++◌, length};
ghost use Rattle.terms.specs.Fields.{le};
ghost use Rattle.hash.specs.Hash.{hash_bytes};
ghost use Rattle.read_number.specs.Numbers.{number_answer_by};
ghost use Rattle.read_position.specs.Positions.{position_answer_by};
ghost use Rattle.meaning.specs.Answers.{Exported};
ghost use Rattle.contracts.specs.Numbers.{grant_bytes, Counts, CountsBy, ReadsAt, ReadsAtBy};

use fields::put_u32;
use hash::{Hash, put_hash};
use read_descent::Grant;
use read_open::as_many;
use refusal_numbers::Refusal;

// A number in eight bytes.
fn put_count(count: &mut [u8], n: u64)
    requires { length count.old ≡ 8 }
    ensures { count.new ≡ le 8 n }
{
    put_u32(count, 0, (n % 4294967296) as u32);
    put_u32(count, 4, (n / 4294967296) as u32);
}

// A key and a value in 64 bytes.
fn put_grant(grant: &mut [u8], key: Hash, value: Hash)
    requires { length grant.old ≡ 64 }
    ensures { grant.new ≡ hash_bytes key ++ hash_bytes value }
{
    put_hash(&mut grant[0..32], key);
    put_hash(&mut grant[32..64], value);
}

// The number of grants of a version, by a table of any length.
fn count_by(store: &[u8], index: &[u32], version: u32, count: &mut [u8; 8]) -> u64
    ensures { Exported (number_answer_by store.now index.now version) (le 8) count.old result count.new }
{
    let read = read_number::grants_count(store, index, version);
    match read {
        Err(refusal) => refusal.code(),
        Ok(n) => {
            put_count(count, n);
            0
        }
    }
}

// The grant at a position of a version, 0 the least key, by a table of any length: its key and its value.
fn at_by(store: &[u8], index: &[u32], version: u32, position: u64, grant: &mut [u8; 64]) -> u64
    ensures { Exported (position_answer_by store.now index.now version position) grant_bytes grant.old result grant.new }
{
    let read = read_position::grants_at(store, index, version, position);
    match read {
        Err(refusal) => refusal.code(),
        Ok(Grant { key, value }) => {
            put_grant(grant, key, value);
            0
        }
    }
}

// The number of grants of a version, by scans.
pub fn grants_count(store: &[u8], version: u32, count: &mut [u8; 8]) -> u64
    ensures { Counts store.now version count.old result count.new }
{
    count_by(store, &[], version, count)
}

// The grant at a position of a version, by scans.
pub fn grants_at(store: &[u8], version: u32, position: u64, grant: &mut [u8; 64]) -> u64
    ensures { ReadsAt store.now version position grant.old result grant.new }
{
    at_by(store, &[], version, position, grant)
}

// The number of grants of a version, by a table lent with the store (2026-05).
pub fn count_indexed(store: &[u8], index: &[u32], version: u32, count: &mut [u8; 8]) -> u64
    ensures { CountsBy store.now (some index.now) version count.old result count.new }
{
    if !as_many(store, index) {
        return u64::from(Refusal::WrongSize.number());
    }
    count_by(store, index, version, count)
}

// The grant at a position of a version, by a table lent with the store (2026-05).
pub fn at_indexed(
    store: &[u8],
    index: &[u32],
    version: u32,
    position: u64,
    grant: &mut [u8; 64],
) -> u64
    ensures { ReadsAtBy store.now (some index.now) version position grant.old result grant.new }
{
    if !as_many(store, index) {
        return u64::from(Refusal::WrongSize.number());
    }
    at_by(store, index, version, position, grant)
}
