// A comparison at the boundary: the call answers 0 where it is accepted, else the number of refusal, and then it writes nothing. `grants`
// exports it.
#![tactic(auto)]

ghost use Rattle.contracts.specs.Changes.{Changes};

use changes::changes;
use fields::put_u32;

// What changed from the first version to the second fills the front of the room, as records of 72 bytes; how many there are goes out in four
// bytes.
pub fn grants_changes(
    store: &[u8],
    first: u32,
    second: u32,
    limit: u32,
    room: &mut [u8],
    records: &mut [u8; 4],
) -> u32
    ensures { Changes first second limit store.now room.old records.old result room.new records.new }
{
    let compared = changes(store, first, second, limit, room);
    match compared {
        Err(refusal) => refusal.number(),
        Ok(n) => {
            put_u32(records, 0, n);
            0
        }
    }
}
