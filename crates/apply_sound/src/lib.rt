// Applying a batch to a sound store in lent memory, documents 01 and 02 (2026-13): the form of the batch and its order are tested first.
#![tactic(auto)]

ghost use Rattle.promises.specs.Calls.{SoundBytes};
ghost use Rattle.apply_answer.specs.Answers.{applied_says};
ghost use Rattle.apply_publish.specs.Apply.{ApplyDoes};

use apply_answer::Applied;
use apply_publish::publish;
use batch_form::batch_form;
use batch_runs::batch_order;
use refusal_numbers::Refusal;

// Applies a batch to a sound store as a number; refused, nothing is written.
pub fn apply_sound(store: &mut [u8], number: u32, batch: &[u8]) -> Result<Applied, Refusal>
    requires { SoundBytes store.old }
    ensures { ApplyDoes number batch.now store.old (applied_says result) store.new }
{
    if !batch_form(batch) {
        return Err(Refusal::BadBatch);
    }
    if !batch_order(batch) {
        return Err(Refusal::BadOrder);
    }
    publish(store, number, batch)
}
