// The figures of a range of versions of a sound store, request 2026-14.
#![tactic(auto)]

ghost use Rattle.promises.specs.Calls.{SoundBytes};
ghost use Rattle.figures_sound.specs.Figures.{figured_says, Tells};

use figures_count::records_in;
use figures_write::{FIGURES_SIZE, range_right, write_each};
use refusal_numbers::Refusal;

// The distinct records of a range of versions, and the sum of records over versions.
#[derive(Clone, Copy)]
pub struct Totals {
    pub distinct: u32,
    pub records: u32,
}

// The figures of a range of a sound store.
pub fn figures_sound(
    store: &[u8],
    first: u32,
    last: u32,
    room: &mut [u8],
) -> Result<Totals, Refusal>
    requires { SoundBytes store.now }
    ensures { Tells first last store.now room.old (figured_says result) room.new }
{
    if !range_right(store, first, last) {
        return Err(Refusal::NotKept);
    }
    let more = last - first;
    let end = FIGURES_SIZE * (more as usize + 1);
    if room.len() < end {
        return Err(Refusal::NoRoom);
    }
    let mut list = [0u16; 16384];
    let records = write_each(&mut room[0..end], &mut list, store, first, last);
    let distinct = records_in(store, first, last);
    Ok(Totals { distinct, records })
}
