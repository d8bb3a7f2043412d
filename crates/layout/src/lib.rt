// Header and slots as bytes, document 01, 'Bytes': specs/ says what they are, proofs/ that they go there and back. The code here says where slots
// begin.
#![tactic(auto)]

pub mod sizes;

ghost use Rattle.std.specs.Prelude.{◌≡◌, ◌≤◌, ◌<◌};
ghost use Rattle.layout.specs.Sizes.{plain_size, slot_size, slot_at, most64};

use terms::Form;

// How many bytes a slot has, and where slot i begins.
pub fn slot_size(form: Form) -> usize
    ensures { (result ≡ slot_size form) × (plain_size ≤ result) × (result ≤ 128) }
{
    match form {
        Form::Plain => sizes::PLAIN_SIZE,
        Form::Counted => sizes::COUNTED_SIZE,
    }
}

pub fn slot_start(form: Form, i: usize) -> usize
    requires { slot_at form i < most64 }
    ensures { (result ≡ slot_at form i) × (plain_size ≤ slot_size form) }
{
    match form {
        Form::Plain => sizes::HEADER_SIZE + sizes::PLAIN_SIZE * i,
        Form::Counted => sizes::HEADER_SIZE + sizes::COUNTED_SIZE * i,
    }
}
