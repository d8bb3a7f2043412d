// The life of one record among those of its store, document 01, 'Sound'.
#![tactic(auto)]

ghost use Rattle.std.specs.Prelude.{◌≡◌, ◌-◌, ◌≤◌, max};
ghost use Rattle.check_kin.specs.Kin.{ends_at};

// The kept versions of a store.
#[derive(Clone, Copy)]
pub struct Kept {
    pub oldest: u32,
    pub latest: u32,
}

// The larger of two versions.
pub fn later(a: u32, b: u32) -> u32
    ensures { result ≡ max a b }
{
    if a < b {
        return b;
    }
    a
}

// The first version after a record's life; a record that is not retired lives past latest.
pub fn ends_before(latest: u32, retired: u32) -> u64
    ensures { (result ≡ ends_at latest retired) × (result ≤ 4294967296) }
{
    if retired == 0 {
        return latest as u64 + 1;
    }
    retired as u64
}

// How many kept versions there are from a record's version to the end of its life.
pub fn kept_life(oldest: u32, version: u32, ends: u64) -> u64
    ensures { result ≡ ends - max oldest version }
{
    let first = later(oldest, version) as u64;
    if ends <= first {
        return 0;
    }
    ends - first
}
