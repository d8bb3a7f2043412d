// The number of grants of a version, 2026-09, by the counts of its root record alone. A read tests the header, not soundness, and writes nothing.
#![tactic(auto)]

ghost use Rattle.std.specs.Prelude.{◌≡◌, true, length};
ghost use Rattle.indexed.specs.Index.{root_by};
ghost use Rattle.meaning.specs.Counting.{number_at};
ghost use Rattle.layout.specs.Headers.{size_right};
ghost use Rattle.layout.specs.Stores.{store_of};
ghost use Rattle.read_number.specs.Numbers.{number_says, number_answer_by};

use check_counts::weight_at;
use index_sights::look_root_by;
use read_open::open;
use read_step::{Trouble, refusal};
use refusal_numbers::ReadRefusal;
use sights::Sight;
use terms::Form;

// The leaves at a version's root record, 0 where there is none; refused where it is spoilt.
fn root_number(store: &[u8], index: &[u32], version: u32) -> Result<u64, ReadRefusal>
    requires { size_right Form.Counted (length store.now) ≡ true }
    ensures { number_says result ≡ number_at (root_by index.now (store_of store.now) version) }
{
    let sight = look_root_by(store, index, version);
    match sight {
        Sight::Matches(i) => {
            let n = weight_at(Form::Counted, store, i);
            Ok(n)
        }
        Sight::Nothing => Ok(0),
        Sight::Spoilt(i) => {
            let slot = i as u16;
            Err(refusal(Trouble::Spoilt(slot)))
        }
    }
}

// Reads the number of grants of a version by a table of any length; one without entries is the scan.
pub fn grants_count(store: &[u8], index: &[u32], version: u32) -> Result<u64, ReadRefusal>
    ensures { number_says result ≡ number_answer_by store.now index.now version }
{
    // The reads share this opening; a shared function with a closure for what follows it would be longer than these two lines.
    open(store, version)?;
    root_number(store, index, version)
}
