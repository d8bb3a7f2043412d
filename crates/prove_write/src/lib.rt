// Proofs written as they were planned, document 01, 'Reading and proving': into a part of a lent room that is as long as the proof.
#![tactic(auto)]

ghost use Rattle.std.specs.Prelude.{◌≡◌, length};
ghost use Rattle.prove_shape.specs.Plans.{plan_says, PlanIn};
ghost use Rattle.prove_write.specs.Written.{planned_length, planned_bytes};

use prove_absence::put_absence;
use prove_paths::put_presence;
use prove_shape::{Plan, Shape};

// Writes the proof of a key as it was planned; a refused one has no bytes.
pub fn write(part: &mut [u8], store: &[u8], key: &[u8], plan: Plan)
    requires { PlanIn store.now plan × (length key.now ≡ 32) × (length part.old ≡ planned_length (plan_says store.now key.now plan)) }
    ensures { part.new ≡ planned_bytes (plan_says store.now key.now plan) }
{
    let shape = plan.shape;
    let first = plan.first;
    let second = plan.second;
    let path = first.path;
    match shape {
        Err(_) => {}
        Ok(Shape::Presence) => put_presence(part, store, path),
        Ok(Shape::Absence) => put_absence(part, store, key, first, second),
    }
}
