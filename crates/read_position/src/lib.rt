// The grant at a position of a version, 2026-09: the root record, then down by the counts. A read tests the header, not soundness, and writes nothing.
#![tactic(auto)]

ghost use Rattle.std.specs.Prelude.{◌≡◌, true, length};
ghost use Rattle.meaning.specs.Counting.{position_at};
ghost use Rattle.indexed.specs.Index.{by_table, root_by};
ghost use Rattle.layout.specs.Headers.{size_right};
ghost use Rattle.layout.specs.Stores.{store_of};
ghost use Rattle.read_descent.specs.Parts.{position_says};
ghost use Rattle.read_position.specs.Positions.{position_answer_by};

use check_counts::weight_at;
use index_sights::look_root_by;
use read_descent::{Grant, descend};
use read_open::open;
use read_step::{Trouble, refusal};
use refusal_numbers::{ReadRefusal, Refusal};
use sights::Sight;
use terms::Form;

// The root record first: 3 where it is spoilt, 20 for a position that isn't below its number.
fn root_position(
    store: &[u8],
    index: &[u32],
    version: u32,
    position: u64,
) -> Result<Grant, ReadRefusal>
    requires { size_right Form.Counted (length store.now) ≡ true }
    ensures { position_says result ≡ position_at (by_table index.now (store_of store.now)) (root_by index.now (store_of store.now) version) position }
{
    let sight = look_root_by(store, index, version);
    match sight {
        Sight::Matches(i) => {
            let number = weight_at(Form::Counted, store, i);
            if number <= position {
                return Err(ReadRefusal::Plain(Refusal::PastNumber));
            }
            descend(store, index, i, position)
        }
        Sight::Nothing => Err(ReadRefusal::Plain(Refusal::PastNumber)),
        Sight::Spoilt(i) => {
            let slot = i as u16;
            Err(refusal(Trouble::Spoilt(slot)))
        }
    }
}

// Reads the grant at a position of a version, 0 the least key, by a table of any length; one without entries is the scan.
pub fn grants_at(
    store: &[u8],
    index: &[u32],
    version: u32,
    position: u64,
) -> Result<Grant, ReadRefusal>
    ensures { position_says result ≡ position_answer_by store.now index.now version position }
{
    // The reads share this opening; a shared function with a closure for what follows it would be longer than these two lines.
    open(store, version)?;
    root_position(store, index, version, position)
}
