// The target of a move filled, document 02, request 2026-10. Both moves call it after their tests, so the compiler keeps it a call and its tables
// are not on the stack while the source is checked.
#![tactic(auto)]

ghost use Rattle.std.specs.Prelude.{◌≡◌};
ghost use Rattle.meaning.specs.Sound.{Sound};
ghost use Rattle.nodehash.specs.Node.{leaf_hash, inner_hash};
ghost use Rattle.layout.specs.Stores.{store_in, store_bytes};
ghost use Rattle.move_rules.specs.Moves.{other, moved_from, SameRoom};

use move_count::count_leaves;
use move_put::put_store;
use terms::Form;

// Writes the target whole: the store of the source, moved into the other form, with counts where that form has them.
pub fn fill(from: Form, source: &[u8], target: &mut [u8])
    requires { SameRoom from (other from) source.now target.old × Sound leaf_hash inner_hash (store_in from source.now) }
    ensures { target.new ≡ store_bytes (moved_from from (store_in from source.now)) }
{
    let mut counts = [0u16; 32768];
    match from {
        Form::Plain => {
            count_leaves(source, &mut counts);
            put_store(Form::Plain, Form::Counted, source, &counts, target);
        }
        Form::Counted => {
            put_store(Form::Counted, Form::Plain, source, &counts, target);
        }
    }
}
