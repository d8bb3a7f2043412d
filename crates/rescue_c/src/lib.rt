// Rescue at the boundary: the call answers 0 where it is accepted, else the number of refusal, and then it writes nothing. `grants`
// exports it.
#![tactic(auto)]

ghost use Rattle.std.specs.Prelude.{◌≡◌, length};
ghost use Rattle.rescue_bytes.specs.Rescues.{report_bytes, RescueExports};
ghost use Rattle.rescue_c.specs.Export.{report_says};

use fields::put_u32;
use rescue::{Rescued, rescue};
use rescue_count::Counts;

// The first version and the three counts fill 16 bytes.
fn put_report(answer: &mut [u8], first: u32, counts: Counts)
    requires { length answer.old ≡ 16 }
    ensures { answer.new ≡ report_bytes (report_says first counts) }
{
    put_u32(answer, 0, first);
    put_u32(answer, 4, counts.same);
    put_u32(answer, 8, counts.other);
    put_u32(answer, 12, counts.out);
}

// Rescues a source into a target; the run's first version and the three counts go out in 16 bytes.
pub fn grants_rescue(
    source: &[u8],
    oldest: u32,
    latest: u32,
    target: &mut [u8],
    answer: &mut [u8; 16],
) -> u32
    ensures { RescueExports oldest latest source.now target.old answer.old result target.new answer.new }
{
    let rescued = rescue(source, oldest, latest, target);
    match rescued {
        Err(refusal) => refusal.number(),
        Ok(Rescued { first, counts }) => {
            put_report(answer, first, counts);
            0
        }
    }
}
