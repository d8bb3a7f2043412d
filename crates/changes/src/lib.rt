// What changed between two versions, document 02, request 2026-01: a store that check accepts, and two versions that it keeps.
#![tactic(auto)]

ghost use Rattle.promises.specs.Calls.{SoundBytes};
ghost use Rattle.changes_kept.specs.Parts.{compared_says, Compares};

use changes_kept::changes_kept;
use check_store::check_with;
use read_open::open;
use refusal_numbers::Refusal;
use terms::Form;

// Compares two versions of a sound store, of which check left its guesses.
fn changes_sound(
    store: &[u8],
    guess: &[u16; 32768],
    first: u32,
    second: u32,
    limit: u32,
    room: &mut [u8],
) -> Result<u32, Refusal>
    requires { SoundBytes store.now }
    ensures { Compares first second limit store.now room.old (compared_says result) room.new }
{
    open(store, first)?;
    open(store, second)?;
    changes_kept(store, guess, first, second, limit, room)
}

// Compares two versions of a store, where check accepts it; refused, nothing is written.
pub fn changes(
    store: &[u8],
    first: u32,
    second: u32,
    limit: u32,
    room: &mut [u8],
) -> Result<u32, Refusal>
    ensures { Compares first second limit store.now room.old (compared_says result) room.new }
{
    let mut guess = [0u16; 32768];
    check_with(Form::Counted, store, &mut guess)?;
    changes_sound(store, &guess, first, second, limit, room)
}
