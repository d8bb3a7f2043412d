// What applying a batch to a sound store answers, documents 01 and 02 (2026-13): 18 by the number, 7 by the room, or the version that was made.
#![tactic(auto)]

ghost use Rattle.std.specs.Prelude.{◌≡◌, ◌≤◌, Ok};
ghost use Rattle.terms.specs.Form.{top32};
ghost use Rattle.meaning.specs.Calls.{accepted};
ghost use Rattle.hash.specs.Hash.{hash_bytes};
ghost use Rattle.refusal_numbers.specs.Refusals.{number_told};
ghost use Rattle.apply_answer.specs.Answers.{applied_says, number_refusal, room_refusal};

use hash::Hash;
use refusal_numbers::Refusal;

// What applying a batch made: the new version, its root, and the count of new records.
#[derive(Clone, Copy)]
pub struct Applied {
    pub version: u32,
    pub root: Hash,
    pub count: u32,
}

// Refuses a number that isn't above latest.
pub fn number_refusal(number: u32, latest: u32) -> Result<(), Refusal>
    ensures { number_told result ≡ number_refusal number latest }
{
    if number <= latest {
        return Err(Refusal::NotAbove);
    }
    Ok(())
}

// Refuses fewer free slots than new records.
pub fn room_refusal(free: usize, records: usize) -> Result<(), Refusal>
    ensures { number_told result ≡ room_refusal free records }
{
    if free < records {
        return Err(Refusal::FewSlots);
    }
    Ok(())
}

// The answer where a version was made.
pub fn made_answer(number: u32, root: Hash, records: usize) -> Applied
    requires { records ≤ top32 }
    ensures { applied_says (Ok result) ≡ accepted (record { version = number; root = hash_bytes root; count = records }) }
{
    let count = records as u32;
    Applied {
        version: number,
        root,
        count,
    }
}
