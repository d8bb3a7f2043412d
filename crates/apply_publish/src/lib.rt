// The version that a batch makes of a sound store in lent memory, documents 01 and 02 (2026-13). Room is known before the first byte is
// written: the steps are taken once without writing, to count the new records, and once with.
#![tactic(auto)]

ghost use Rattle.apply_answer.specs.Answers.{applied_says};
ghost use Rattle.apply_ready.specs.Ready.{Ready};
ghost use Rattle.apply_publish.specs.Apply.{ApplyDoes};

use apply_answer::{Applied, made_answer, number_refusal, room_refusal};
use apply_guess::guess_all;
use apply_outcome::child_of;
use apply_ready::{count_free, root_version};
use apply_root::at_root;
use place::Place;
use refusal_numbers::Refusal;
use store::latest_of;
use store_put::put_latest;

// Makes the version of a number above latest of a sound store.
pub fn publish(store: &mut [u8], number: u32, batch: &[u8]) -> Result<Applied, Refusal>
    requires { Ready store.old batch.now }
    ensures { ApplyDoes number batch.now store.old (applied_says result) store.new }
{
    let latest = latest_of(store);
    number_refusal(number, latest)?;
    let top = Place::top();
    let old = root_version(store, latest);
    let mut guesses = [0u16; 8192];
    guess_all(store, &mut guesses);
    let needs = at_root(store, &guesses, false, number, top, old, batch);
    room_refusal(count_free(store), needs.reach)?;
    let made = at_root(store, &guesses, true, number, top, old, batch);
    put_latest(store, number);
    let node = made.node;
    let says = child_of(node);
    Ok(made_answer(number, says.hash, needs.reach))
}
