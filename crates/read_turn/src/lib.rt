// Where the descent to a position turns, 2026-09: the side that a position is on by the left count of an inner record, and the position there.
#![tactic(auto)]

ghost use Rattle.terms.specs.Bits.{left};
ghost use Rattle.terms.specs.Records.{count_on};
ghost use Rattle.layout.specs.Slots.{counts_in};
ghost use Rattle.layout.specs.Stores.{slot_in, Has};
ghost use Rattle.read_turn.specs.Turns.{Turned};

use store::child_count_at;
use terms::Form;

// The side that a position is on, and the position there.
#[derive(Clone, Copy)]
pub struct Turn {
    pub right: bool,
    pub rest: u64,
}

// Left below the left count of the inner record in slot i, else right with the rest.
pub fn turn_at(store: &[u8], i: usize, n: u64) -> Turn
    requires { Has Form.Counted store.now i }
    ensures { Turned (count_on left (counts_in (slot_in Form.Counted i store.now))) n result }
{
    let lefts = child_count_at(Form::Counted, store, i, false) as u64;
    if n < lefts {
        return Turn {
            right: false,
            rest: n,
        };
    }
    Turn {
        right: true,
        rest: n - lefts,
    }
}
