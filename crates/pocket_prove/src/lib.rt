// Proving in the pocket profile over lent bytes, document 02, request 2026-14: as the full prover, with 19 before 9.
#![tactic(auto)]

ghost use Rattle.std.specs.Prelude.{◌≡◌, length};
ghost use Rattle.prove.specs.Parts.{Gives};
ghost use Rattle.pocket_prove.specs.Parts.{way_short, one_long, plan_outside};
ghost use Rattle.contracts.specs.Pocket.{pocket_answer, PocketProves};

use pocket::POCKET_STEPS;
use prove::give;
use prove_paths::{Sought, Way};
use prove_plan::plan_of;
use prove_shape::{Plan, Shape};
use prove_told::told;
use read_open::open;
use refusal_numbers::{ReadRefusal, Refusal};

// Whether the neighbour that a search found, if any, has at most 32 steps. It goes like `prove_paths::neighbour_length`, with other values in each case: one
// function over both would be handed all of them.
fn is_short(n: Sought) -> bool
    ensures { result ≡ way_short n.way n.path }
{
    let way = n.way;
    let path = n.path;
    let place = path.place;
    match way {
        Way::Somebody => place.count <= POCKET_STEPS,
        Way::Nobody => true,
        Way::Stopped(_) => true,
    }
}

// Whether one of two neighbours has more.
fn one_is_long(left: Sought, right: Sought) -> bool
    ensures { result ≡ one_long left right }
{
    if !is_short(left) {
        return true;
    }
    !is_short(right)
}

// Whether a planned proof shows a leaf with more than 32 steps.
fn is_outside(plan: Plan) -> bool
    ensures { result ≡ plan_outside plan }
{
    let shape = plan.shape;
    let first = plan.first;
    let second = plan.second;
    let path = first.path;
    let place = path.place;
    match shape {
        Err(_) => false,
        Ok(Shape::Presence) => POCKET_STEPS < place.count,
        Ok(Shape::Absence) => one_is_long(first, second),
    }
}

// Proves a key present or absent in a version by a proof of the profile: it fills the front of the room and the rest stays; refused, nothing is written.
pub fn pocket_prove(
    store: &[u8],
    version: u32,
    key: &[u8],
    room: &mut [u8],
) -> Result<u32, ReadRefusal>
    ensures { Gives (pocket_answer store.now version key.now (length room.old)) room.old room.new result }
{
    if key.len() != 32 {
        return Err(ReadRefusal::Plain(Refusal::Not32Bytes));
    }
    open(store, version)?;
    let plan = plan_of(store, &[], &[], version, key);
    if is_outside(plan) {
        return Err(ReadRefusal::Plain(Refusal::OutsidePocket));
    }
    give(store, key, plan, room)
}

// The call at the boundary: 0 where it is accepted, else the number of refusal, with a spoilt slot + 1 in the high half, and then nothing is written.
// The proof for a key in a version, of at most 32 steps for each leaf shown, fills the front of the room; its length goes out in four bytes.
pub fn grants_pocket_prove(
    store: &[u8],
    version: u32,
    key: &[u8],
    room: &mut [u8],
    length: &mut [u8; 4],
) -> u64
    ensures { PocketProves store.now version key.now room.old length.old result room.new length.new }
{
    let proved = pocket_prove(store, version, key, room);
    told(proved, length)
}
