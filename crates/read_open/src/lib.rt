// What a read tests before it looks at a slot, document 01, 'Reading and proving': the header, and whether the version is kept.
#![tactic(auto)]

ghost use Rattle.std.specs.Prelude.{◌≡◌};
ghost use Rattle.promises.specs.Headed.{as_many};
ghost use Rattle.read_open.specs.Opening.{opened, opened_says};

use header::read_header;
use layout::sizes::{COUNTED_SIZE, HEADER_SIZE};
use refusal_numbers::Refusal;
use terms::Form;

// What a read tests first: the header, then the version.
pub fn open(store: &[u8], version: u32) -> Result<(), Refusal>
    ensures { opened_says result ≡ opened store.now version }
{
    let header = read_header(Form::Counted, store)?;
    if version < header.oldest {
        return Err(Refusal::NotKept);
    }
    if header.latest < version {
        return Err(Refusal::NotKept);
    }
    Ok(())
}

// Whether a table has as many entries as a store has slots.
pub fn as_many(store: &[u8], index: &[u32]) -> bool
    ensures { result ≡ as_many store.now index.now }
{
    if store.len() < HEADER_SIZE {
        return index.len() == 0;
    }
    index.len() == (store.len() - HEADER_SIZE) / COUNTED_SIZE
}
