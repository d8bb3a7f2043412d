// The paths of a proof, by its form alone: none where it is off form, one, or two around a gap. Nothing is hashed.
#![tactic(auto)]

ghost use Rattle.verify_plan.specs.Plan.{PathsIn};

use fields::{get_u16, get_u32};
use proofrecords::{ABSENCE_HEAD, FLAGS_AT};
use verify_form::{is_absence, is_presence};

// How many, and where their records begin.
#[derive(Clone, Copy)]
pub struct Paths {
    pub many: usize,
    pub first: usize,
    pub second: usize,
}

pub fn paths_of(x: &[u8]) -> Paths
    ensures { PathsIn x.now result }
{
    if is_presence(x) {
        return Paths {
            many: 1,
            first: 0,
            second: 0,
        };
    }
    if !is_absence(x) {
        return Paths {
            many: 0,
            first: 0,
            second: 0,
        };
    }
    if get_u16(x, FLAGS_AT) <= 2 {
        return Paths {
            many: 1,
            first: ABSENCE_HEAD,
            second: 0,
        };
    }
    Paths {
        many: 2,
        first: ABSENCE_HEAD,
        second: ABSENCE_HEAD + get_u32(x, ABSENCE_HEAD) as usize,
    }
}
