// Rescue from a damaged store, document 02, request 2026-08.
#![tactic(auto)]

ghost use Rattle.rescue_bytes.specs.Rescues.{Rescues};
ghost use Rattle.rescue.specs.Answer.{rescued_says};

use header_form::size_right;
use order_guess::guide;
use refusal_numbers::Refusal;
use rescue_count::{Counts, count};
use rescue_fill::fill;
use rescue_step::step;
use terms::Form;

// What was rescued: the run's first version and the counts.
#[derive(Clone, Copy)]
pub struct Rescued {
    pub first: u32,
    pub counts: Counts,
}

// Makes in the target a sound store of the longest run of the source's versions that ends at latest; refused, nothing is written.
pub fn rescue(
    source: &[u8],
    oldest: u32,
    latest: u32,
    target: &mut [u8],
) -> Result<Rescued, Refusal>
    ensures { Rescues oldest latest source.now target.old (rescued_says result) target.new }
{
    if !size_right(Form::Counted, source.len()) {
        return Err(Refusal::WrongSize);
    }
    if target.len() != source.len() {
        return Err(Refusal::WrongSize);
    }
    if latest < oldest {
        return Err(Refusal::WrongHeader);
    }
    let mut table = [0u16; 16384];
    let order = guide(source, &mut table);
    // Latest has no next version.
    let tested = step(source, order, latest, 0, 0, 0);
    let Some(start) = tested else {
        return Err(Refusal::NotSound);
    };
    let first = fill(
        source,
        order,
        oldest,
        latest,
        start.root,
        start.floor,
        target,
    );
    let counts = count(source, target);
    Ok(Rescued { first, counts })
}
