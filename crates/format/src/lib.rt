// Formatting: a store of any contents becomes a fresh one.
#![tactic(auto)]

ghost use Rattle.std.specs.Prelude.{◌≡◌};
ghost use Rattle.refusal_numbers.specs.Refusals.{number_told};
ghost use Rattle.contracts.specs.Format.{format_answer, format_bytes};

use fields::clear;
use header::put_header;
use header_form::size_right;
use refusal_numbers::{Refusal, number_told};
use store::slot_count;
use terms::Form;

// Formats a store whose length is right; refused, nothing is written.
pub fn format(store: &mut [u8]) -> Result<(), Refusal>
    ensures answer { number_told result ≡ format_answer store.old }
    ensures bytes { store.new ≡ format_bytes store.old }
{
    if !size_right(Form::Counted, store.len()) {
        return Err(Refusal::WrongSize);
    }
    let capacity = slot_count(Form::Counted, store) as u32;
    clear(store);
    put_header(Form::Counted, store, capacity, 0, 0);
    Ok(())
}

// What `grants` exports. No proof file stands behind it, so that an idle one is refused by its contract alone.
pub fn formatted_out(store: &mut [u8]) -> u32
    ensures answer { result ≡ format_answer store.old }
    ensures bytes { store.new ≡ format_bytes store.old }
{
    number_told(format(store))
}
