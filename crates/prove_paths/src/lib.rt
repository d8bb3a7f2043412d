// Paths in lent memory and the proofs that they are written as, document 01, 'Bytes', presence proof.
#![tactic(auto)]

ghost use Rattle.std.specs.Prelude.{◌≡◌, ◌+◌, ◌*◌, ◌≤◌, length};
ghost use Rattle.terms.specs.Bits.{digit};
ghost use Rattle.layout.specs.Stores.{SlotWithin};
ghost use Rattle.proofrecords.specs.ProofBytes.{step_size, presence_head, steps_bytes, presence_bytes};
ghost use Rattle.prove_paths.specs.Paths.{step_bytes, step_at, path_steps, presence_at, PathIn};
ghost use Rattle.prove_paths.specs.Neighbours.{room_for};

use fields::{copy, put_u16, put_u32};
use place::{Place, key_bit};
use proofrecords::{PRESENCE_HEAD, PRESENCE_KIND, STEP_SIZE};
use read_step::Trouble;
use slots::{child_hash, grant_of};
use store::slot_of;
use terms::Form;

// The way to a node: the slots of the inner nodes above it, the root's first; its place, whose bits are the sides taken; and its own slot.
#[derive(Clone, Copy)]
pub struct Path {
    pub slots: [u16; 256],
    pub place: Place,
    pub at: usize,
}

// The byte of a side.
fn digit(side: bool) -> u8
    ensures { result ≡ digit side }
{
    if side {
        return 1;
    }
    0
}

// Writes the step up from the child on a side of the inner node in slot i: the side, and the hash of the sibling as the node has it.
fn put_step(part: &mut [u8], store: &[u8], i: usize, side: bool)
    requires { (length part.old ≡ step_size) × SlotWithin Form.Counted i store.now }
    ensures { part.new ≡ step_bytes (step_at store.now i side) }
{
    copy(
        &mut part[1..STEP_SIZE],
        child_hash(slot_of(Form::Counted, store, i), !side),
    );
    part[0] = digit(side);
}

// Writes the steps of a path, from its end upwards.
fn put_steps(part: &mut [u8], store: &[u8], path: Path)
    requires { PathIn store.now path × (length part.old ≡ step_size * path.place.count) }
    ensures { part.new ≡ steps_bytes (path_steps store.now path) }
{
    let slots = path.slots;
    let place = path.place;
    let bits = place.bits;
    let mut start = 0;
    for depth in (0..place.count).rev() {
        let end = start + STEP_SIZE;
        let i = slots[depth] as usize;
        put_step(&mut part[start..end], store, i, key_bit(&bits, depth));
        start = end;
    }
}

// Writes the presence proof of the leaf at the end of a path.
pub fn put_presence(part: &mut [u8], store: &[u8], path: Path)
    requires { PathIn store.now path × (length part.old ≡ presence_head + step_size * path.place.count) }
    ensures { part.new ≡ presence_bytes (presence_at store.now path) }
{
    let place = path.place;
    let count = place.count as u16;
    let at = path.at;
    let len = part.len();
    put_u32(part, 0, len as u32);
    put_u16(part, 4, PRESENCE_KIND);
    put_u16(part, 6, count);
    copy(
        &mut part[8..PRESENCE_HEAD],
        grant_of(slot_of(Form::Counted, store, at)),
    );
    put_steps(&mut part[PRESENCE_HEAD..len], store, path);
}

// How a search for a neighbour ended.
#[derive(Clone, Copy)]
pub enum Way {
    // What stopped it.
    Stopped(Trouble),
    Nobody,
    Somebody,
}

// What a search found; the path counts where there is somebody.
#[derive(Clone, Copy)]
pub struct Sought {
    pub way: Way,
    pub path: Path,
}

// How many bytes a neighbour's record has, 0 where there is nobody.
pub fn neighbour_length(n: Sought) -> usize
    requires { n.path.place.count ≤ 256 }
    ensures { result ≡ room_for n }
{
    let way = n.way;
    let path = n.path;
    let place = path.place;
    match way {
        Way::Somebody => PRESENCE_HEAD + STEP_SIZE * place.count,
        Way::Nobody => 0,
        Way::Stopped(_) => 0,
    }
}
