// Proving over lent bytes, document 01, 'Reading and proving', and 2026-03: the proof for a key in a version, for every store, sound or damaged.
#![tactic(auto)]

ghost use Rattle.std.specs.Prelude.{◌≡◌, length};
ghost use Rattle.prove_shape.specs.Plans.{plan_says, PlanIn};
ghost use Rattle.meaning.specs.Answers.{room_after};
ghost use Rattle.proofrecords.specs.ProofBytes.{proof_bytes};
ghost use Rattle.prove.specs.Parts.{prove_answer_by, Offers, proved_says, length_answer};

use prove_plan::plan_of;
use prove_shape::Plan;
use prove_write::write;
use read_open::open;
use refusal_numbers::{ReadRefusal, Refusal};

// Gives the proof of a key as it was planned, if there is room, and answers its length.
pub fn give(store: &[u8], key: &[u8], plan: Plan, room: &mut [u8]) -> Result<u32, ReadRefusal>
    requires { PlanIn store.now plan × (length key.now ≡ 32) }
    ensures { Offers (plan_says store.now key.now plan) room.old room.new result }
{
    plan.shape?;
    let len = plan.length;
    if room.len() < len {
        return Err(ReadRefusal::Plain(Refusal::NoRoom));
    }
    write(&mut room[0..len], store, key, plan);
    Ok(len as u32)
}

// Proves a key present or absent in a version, by a table of any length; one without entries is the scan. The proof fills the front of the room
// and the rest stays; refused, nothing is written.
pub fn prove(
    store: &[u8],
    index: &[u32],
    version: u32,
    key: &[u8],
    room: &mut [u8],
) -> Result<u32, ReadRefusal>
    ensures answer { proved_says result ≡ length_answer (prove_answer_by store.now index.now version key.now (length room.old)) }
    ensures bytes { room.new ≡ room_after proof_bytes (prove_answer_by store.now index.now version key.now (length room.old)) room.old }
{
    if key.len() != 32 {
        return Err(ReadRefusal::Plain(Refusal::Not32Bytes));
    }
    open(store, version)?;
    give(store, key, plan_of(store, index, &[], version, key), room)
}
