// A store written in the other form, document 02, request 2026-10: each record in its slot, as it was, with the counts that a table has for it.
#![tactic(auto)]

ghost use Rattle.std.specs.Prelude.{◌≡◌};
ghost use Rattle.terms.specs.Bits.{Bytes};
ghost use Rattle.terms.specs.Records.{spoiled, tally};
ghost use Rattle.layout.specs.Stores.{store_in, store_bytes, slot_no, Has, SlotWithin, with_slot};
ghost use Rattle.move_put.specs.Put.{tallied, tallied_as, Movable};

use header::put_header;
use slots::{Kind, grant_of, read_slot};
use store::{latest_of, oldest_of, slot_count, slot_of};
use store_put::{clear_slot_at, put_inner_at, put_leaf_at};
use terms::Form;

// Writes slot i of the target: what slot i of the source holds, with these counts where it is an inner record.
fn put_slot(
    from: Form,
    to: Form,
    source: &[u8],
    target: &mut [u8],
    i: usize,
    lefts: u32,
    rights: u32,
)
    requires { Has from source.now i × ((x : Bytes) → slot_no from i source.now ≡ spoiled x → ⊥) × SlotWithin to i target.old }
    ensures { target.new ≡ with_slot to i (tallied (tally lefts rights) (slot_no from i source.now)) target.old }
{
    let s = slot_of(from, source, i);
    let slot = read_slot(s);
    let place = slot.place;
    let kind = slot.kind;
    match kind {
        Kind::Free => {
            clear_slot_at(to, target, i);
        }
        Kind::Leaf => {
            put_leaf_at(
                to,
                target,
                i,
                place,
                slot.version,
                slot.retired,
                grant_of(s),
            );
        }
        Kind::Inner { left, right } => {
            put_inner_at(
                to,
                target,
                i,
                place,
                slot.version,
                slot.retired,
                left,
                right,
                lefts,
                rights,
            );
        }
        Kind::Spoiled => {}
    }
}

// Writes the target whole: the header, and each slot.
pub fn put_store(from: Form, to: Form, source: &[u8], counts: &[u16; 32768], target: &mut [u8])
    requires { Movable from to source.now counts.now target.old }
    ensures { target.new ≡ store_bytes (tallied_as to counts.now (store_in from source.now)) }
{
    let n = slot_count(from, source);
    put_header(to, target, n as u32, oldest_of(source), latest_of(source));
    for i in 0..n {
        put_slot(
            from,
            to,
            source,
            target,
            i,
            u32::from(counts[2 * i]),
            u32::from(counts[2 * i + 1]),
        );
    }
}
