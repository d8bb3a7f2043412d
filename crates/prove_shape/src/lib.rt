// What a proof will be: its shape, the plan by which it is written, and the shape of an absence proof by how its searches ended, document 01, 'Reading and proving', with 2026-03
// and 2026-07.
#![tactic(auto)]

ghost use Rattle.std.specs.Prelude.{◌≡◌};
ghost use Rattle.prove_shape.specs.Plans.{shape_answer};
ghost use Rattle.prove_shape.specs.Shapes.{right_shape, absence_shape};

use prove_paths::{Sought, Way};
use read_step::refusal;
use refusal_numbers::{ReadRefusal, Refusal};

// What a proof will be.
#[derive(Clone, Copy)]
pub enum Shape {
    Presence,
    Absence,
}

// A proof before it is written: the leaves that it shows, which are the key's own or its neighbours, left first; and its length. They count where it isn't refused.
#[derive(Clone, Copy)]
pub struct Plan {
    pub shape: Result<Shape, ReadRefusal>,
    pub first: Sought,
    pub second: Sought,
    pub length: usize,
}

// The shape by the right search, where the left one has found its way: `alone` is the shape without a right neighbour.
fn right_shape(right: Way, alone: Result<Shape, ReadRefusal>) -> Result<Shape, ReadRefusal>
    ensures { shape_answer result ≡ right_shape right (shape_answer alone) }
{
    match right {
        Way::Stopped(trouble) => Err(refusal(trouble)),
        Way::Nobody => alone,
        Way::Somebody => Ok(Shape::Absence),
    }
}

// The shape by both searches, the left one first. Only in an empty version do both find nobody.
pub fn absence_shape(left: Way, right: Way) -> Result<Shape, ReadRefusal>
    ensures { shape_answer result ≡ absence_shape left right }
{
    match left {
        Way::Stopped(trouble) => Err(refusal(trouble)),
        Way::Nobody => right_shape(right, Err(ReadRefusal::Plain(Refusal::EmptyVersion))),
        Way::Somebody => right_shape(right, Ok(Shape::Absence)),
    }
}
