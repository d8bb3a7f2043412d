// A store and its table, document 02, request 2026-05: telling whether the table is right, building it, and formatting both. A table of another length than the
// capacity gives 1, with the store's own.
#![tactic(auto)]

ghost use Rattle.std.specs.Prelude.{◌≡◌};
ghost use Rattle.refusal_numbers.specs.Refusals.{number_told};
ghost use Rattle.index_rules.specs.Tables.{Opened, Builds, Tells, FormatsBoth};

use check_store::check;
use format::format;
use header_form::size_right;
use index_keep::build;
use index_look::is_right;
use refusal_numbers::Refusal;
use store::slot_count;
use terms::Form;

// Whether the store is sound and the table as long as its capacity: refused by 1, 2 or 3.
fn opened(store: &[u8], table: &[u32]) -> Result<(), Refusal>
    ensures { Opened store.now table.now (number_told result) }
{
    if !size_right(Form::Counted, store.len()) {
        return Err(Refusal::WrongSize);
    }
    if table.len() != slot_count(Form::Counted, store) {
        return Err(Refusal::WrongSize);
    }
    check(Form::Counted, store)
}

// Whether the table is the right one of a sound store.
pub fn told(store: &[u8], table: &[u32]) -> Result<(), Refusal>
    ensures { Tells store.now table.now (number_told result) }
{
    opened(store, table)?;
    if !is_right(store, table) {
        return Err(Refusal::WrongIndex);
    }
    Ok(())
}

// Writes the right table of a sound store; refused, nothing is written.
pub fn built(store: &[u8], table: &mut [u32]) -> Result<(), Refusal>
    ensures { Builds store.now table.old (number_told result) table.new }
{
    opened(store, table)?;
    build(store, table);
    Ok(())
}

// Makes a fresh store of any contents, and its table; refused, nothing is written.
pub fn formatted(store: &mut [u8], table: &mut [u32]) -> Result<(), Refusal>
    ensures { FormatsBoth store.old table.old (number_told result) store.new table.new }
{
    if !size_right(Form::Counted, store.len()) {
        return Err(Refusal::WrongSize);
    }
    let n = slot_count(Form::Counted, store);
    if table.len() != n {
        return Err(Refusal::WrongSize);
    }
    table.fill(n as u32);
    format(store)
}
