// One step back of a rescue, document 02, request 2026-08: whether a version joins the next one's tree.
#![tactic(auto)]

ghost use Rattle.std.specs.Prelude.{◌≡◌, true, length};
ghost use Rattle.layout.specs.Headers.{size_right};
ghost use Rattle.layout.specs.Stores.{store_of};
ghost use Rattle.ordered.specs.Ordered.{Guide};
ghost use Rattle.rescue_step.specs.Step.{StepSays, RightTop};

use check_kin::later;
use place::Place;
use rescue_join::join;
use rescue_root::root_version;
use terms::Form;

// Where a run stands at a version that joins: the version of the root, and the floor, the version before which no run
// begins.
#[derive(Clone, Copy)]
pub struct Reached {
    pub root: u32,
    pub floor: u32,
}

// Whether version v joins the tree of the version `next`, which is right and whose root is of version b; `low` is the floor of the run up to now. All three
// are 0 where there is no next version.
pub fn step(source: &[u8], order: &[u16], v: u32, next: u32, b: u32, low: u32) -> Option<Reached>
    requires { (size_right Form.Counted (length source.now) ≡ true) × Guide (store_of source.now).slots order.now (length order.now) × RightTop source.now b }
    ensures { StepSays source.now v next b low result }
{
    let a = root_version(source, order, v);
    if a == 0 {
        return None;
    }
    let top = Place::top();
    let l = join(source, order, next, top, a, b)?;
    let higher = later(low, l);
    if v < higher {
        return None;
    }
    Some(Reached {
        root: a,
        floor: higher,
    })
}
