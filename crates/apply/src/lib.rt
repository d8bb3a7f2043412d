// Applying a batch to a store in lent memory, documents 01 and 02 (2026-13): the version of the given number, or a number of refusal.
#![tactic(auto)]

ghost use Rattle.apply_answer.specs.Answers.{applied_says};
ghost use Rattle.apply_publish.specs.Apply.{ApplyDoes};

use apply_answer::Applied;
use apply_sound::apply_sound;
use check_store::check;
use refusal_numbers::Refusal;
use terms::Form;

// Applies a batch to a store as a number, where check accepts it; refused, nothing is written.
pub fn apply(store: &mut [u8], number: u32, batch: &[u8]) -> Result<Applied, Refusal>
    ensures { ApplyDoes number batch.now store.old (applied_says result) store.new }
{
    check(Form::Counted, store)?;
    apply_sound(store, number, batch)
}
