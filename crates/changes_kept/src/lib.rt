// What changed between two kept versions of a sound store, request 2026-01: the two trees are walked together, once to count visits and records, once to write
// the list.
#![tactic(auto)]

ghost use Rattle.std.specs.Prelude.{◌≡◌, true};
ghost use Rattle.meaning.specs.Calls.{is_kept};
ghost use Rattle.layout.specs.Stores.{store_of};
ghost use Rattle.promises.specs.Calls.{SoundBytes};
ghost use Rattle.changes_kept.specs.Parts.{compared_says, Compares};

use changes_put::ITEM_SIZE;
use changes_top::root_top;
use changes_walk::{Walked, walk};
use place::Place;
use refusal_numbers::Refusal;

// Compares two kept versions of a sound store, of which check left its guesses, and answers how many records the list has.
pub fn changes_kept(
    store: &[u8],
    guess: &[u16; 32768],
    first: u32,
    second: u32,
    limit: u32,
    room: &mut [u8],
) -> Result<u32, Refusal>
    requires { SoundBytes store.now × (is_kept (store_of store.now) first ≡ true) × (is_kept (store_of store.now) second ≡ true) }
    ensures { Compares first second limit store.now room.old (compared_says result) room.new }
{
    let top = Place::top();
    let old = root_top(store, first, top);
    let new = root_top(store, second, top);
    let Walked::Done { budget: _, next: n } = walk(
        store, guess, top, old, new, limit, false, room, 0,
    ) else {
        return Err(Refusal::TooManyVisits);
    };
    if room.len() / ITEM_SIZE < n {
        return Err(Refusal::NoRoom);
    }
    walk(store, guess, top, old, new, limit, true, room, 0);
    let many = n as u32;
    Ok(many)
}
