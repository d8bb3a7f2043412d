// A store moved over into the counted form, document 02, request 2026-10.
#![tactic(auto)]

ghost use Rattle.move_rules.specs.Moves.{Moves};

use move_fill::fill;
use move_open::open;
use terms::Form;

// Makes in the target the source's store in the counted form, slots kept; answers 0, or the number of refusal, and then nothing is written.
pub fn over(source: &[u8], target: &mut [u8]) -> u32
    ensures { Moves Form.Plain source.now target.old result target.new }
{
    if let Err(refusal) = open(Form::Plain, Form::Counted, source, target) {
        return refusal.number();
    }
    fill(Form::Plain, source, target);
    0
}
