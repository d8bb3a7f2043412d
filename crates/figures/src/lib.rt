// The figures of a range of versions over lent bytes, document 02, request 2026-14: a scan of the slots for each block of versions, and one for the range.
#![tactic(auto)]

ghost use Rattle.std.specs.Prelude.{◌≡◌, ◌++◌, length};
ghost use Rattle.terms.specs.Fields.{le};
ghost use Rattle.figures_sound.specs.Figures.{figured_says, Tells};
ghost use Rattle.contracts.specs.Figures as export;

use check_store::check;
use fields::put_u32;
use figures_sound::{Totals, figures_sound};
use refusal_numbers::Refusal;
use terms::Form;

// The figures of a range of versions, where check accepts the store; refused, nothing is written.
pub fn figures(store: &[u8], first: u32, last: u32, room: &mut [u8]) -> Result<Totals, Refusal>
    ensures { Tells first last store.now room.old (figured_says result) room.new }
{
    check(Form::Counted, store)?;
    figures_sound(store, first, last, room)
}

// Distinct records and the sum of records over versions fill 8 bytes.
fn put_totals(totals: &mut [u8], distinct: u32, records: u32)
    requires { length totals.old ≡ 8 }
    ensures { totals.new ≡ le 4 distinct ++ le 4 records }
{
    put_u32(totals, 0, distinct);
    put_u32(totals, 4, records);
}

// The call at the boundary: 0 where it is accepted, else the number of refusal, and then nothing is written.
// The numbers of the versions from first to last fill the front of the room, 16 bytes for each; the totals of the range go out in 8 bytes.
pub fn grants_figures(
    store: &[u8],
    first: u32,
    last: u32,
    room: &mut [u8],
    totals: &mut [u8; 8],
) -> u32
    ensures { export.Figures first last store.now room.old totals.old result room.new totals.new }
{
    let figured = figures(store, first, last, room);
    match figured {
        Err(refusal) => refusal.number(),
        Ok(Totals { distinct, records }) => {
            put_totals(totals, distinct, records);
            0
        }
    }
}
