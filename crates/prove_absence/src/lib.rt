// The absence proof of a key, written from the paths to its neighbours, document 01, 'Bytes', absence proof.
#![tactic(auto)]

ghost use Rattle.std.specs.Prelude.{◌≡◌, ◌+◌, length};
ghost use Rattle.proofrecords.specs.ProofBytes.{absence_head, neighbour_bytes, absence_bytes};
ghost use Rattle.prove_paths.specs.Neighbours.{room_for, flag_for, neighbour_at, NeighbourIn, absent_of};

use fields::{copy, put_u16, put_u32};
use proofrecords::{ABSENCE_HEAD, ABSENCE_KIND};
use prove_paths::{Sought, Way, neighbour_length, put_presence};

// The flag where there is somebody, else 0.
fn flag(n: Sought, bit: u16) -> u16
    ensures { result ≡ flag_for n bit }
{
    let way = n.way;
    match way {
        Way::Somebody => bit,
        Way::Nobody => 0,
        Way::Stopped(_) => 0,
    }
}

// Writes a neighbour's record where there is somebody.
fn put_neighbour(part: &mut [u8], store: &[u8], n: Sought)
    requires { NeighbourIn store.now n × (length part.old ≡ room_for n) }
    ensures { part.new ≡ neighbour_bytes (neighbour_at store.now n) }
{
    let way = n.way;
    let path = n.path;
    match way {
        Way::Somebody => put_presence(part, store, path),
        Way::Nobody => {}
        Way::Stopped(_) => {}
    }
}

// Writes the absence proof of a key with these neighbours.
pub fn put_absence(part: &mut [u8], store: &[u8], key: &[u8], left: Sought, right: Sought)
    requires { (NeighbourIn store.now left × NeighbourIn store.now right) × (length key.now ≡ 32) × (length part.old ≡ absence_head + room_for left + room_for right) }
    ensures { part.new ≡ absence_bytes (absent_of key.now (neighbour_at store.now left) (neighbour_at store.now right)) }
{
    let flags = flag(left, 1) + flag(right, 2);
    let middle = ABSENCE_HEAD + neighbour_length(left);
    let len = part.len();
    put_u32(part, 0, len as u32);
    put_u16(part, 4, ABSENCE_KIND);
    put_u16(part, 6, flags);
    copy(&mut part[8..ABSENCE_HEAD], key);
    put_neighbour(&mut part[ABSENCE_HEAD..middle], store, left);
    put_neighbour(&mut part[middle..len], store, right);
}
