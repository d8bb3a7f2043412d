// What the passes of a check must have seen, and that it is enough for each slot to pass. Its code adds up the lives of a record's parents, in an entry for
// each slot; an entry stays where it would pass 32 bits.
#![tactic(auto)]

ghost use Rattle.std.specs.Prelude.{◌+◌, ◌≤◌, ◌<◌};
ghost use Rattle.check_seen.specs.Sums.{Added};

// At most the sum.
fn more(a: u32, life: u64) -> u32
    requires { life ≤ 4294967296 }
    ensures { result ≤ a + life }
{
    let sum = a as u64 + life;
    if 4294967295 < sum {
        return 4294967295;
    }
    sum as u32
}

pub fn add(sums: &mut [u32; 16384], c: usize, life: u64)
    requires { (c < 16384) × (life ≤ 4294967296) }
    ensures { Added sums.old sums.new c life }
{
    sums[c] = more(sums[c], life);
}
