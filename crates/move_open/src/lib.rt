// The tests of a move, document 02, request 2026-10: the sizes of source and target, then the source, which is checked where it lies.
#![tactic(auto)]

ghost use Rattle.move_open.specs.Open.{Opened};
ghost use Rattle.refusal_numbers.specs.Refusals.{number_told};

use check_store::check;
use header_form::size_right;
use refusal_numbers::Refusal;
use store::slot_count;
use terms::Form;

// Whether the source may be moved to the target.
pub fn open(from: Form, to: Form, source: &[u8], target: &[u8]) -> Result<(), Refusal>
    ensures { Opened from to source.now target.now (number_told result) }
{
    if !size_right(from, source.len()) {
        return Err(Refusal::WrongSize);
    }
    if !size_right(to, target.len()) {
        return Err(Refusal::WrongSize);
    }
    if slot_count(from, source) != slot_count(to, target) {
        return Err(Refusal::WrongSize);
    }
    check(from, source)
}
