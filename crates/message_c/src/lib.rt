// The two calls of messages for a caller in another language, document 02, request 2026-02: a number, and what they give in the caller's arrays.
#![tactic(auto)]

ghost use Rattle.std.specs.Prelude.{[], ◌∷◌};
ghost use Rattle.message_rules.specs.Contracts.{WritesMessage, ReadsMessage};

use fields::put_u32;
use message_read::grants_ics23_read;
use message_write::write;

// Writes the message of a record to the front of the room; length: how long it is, 4 bytes little-endian. Lent are the raw key asked for, and raw key and value
// of the leaf shown or the left of two, and of the right of two; a leaf not shown has no bytes.
pub fn grants_ics23_write(
    proof: &[u8],
    asked: &[u8],
    key1: &[u8],
    value1: &[u8],
    key2: &[u8],
    value2: &[u8],
    room: &mut [u8],
    length: &mut [u8; 4],
) -> u32
    ensures { WritesMessage proof.now asked.now (key1.now ∷ value1.now ∷ key2.now ∷ value2.now ∷ []) room.old length.old result room.new length.new }
{
    let wrote = write(proof, asked, key1, value1, key2, value2, room);
    match wrote {
        Err(refusal) => refusal.number(),
        Ok(n) => {
            put_u32(length, 0, n);
            0
        }
    }
}

// What `grants` exports of writing. No proof file stands behind it, so that an idle one is refused by its contract alone.
pub fn written_out(
    proof: &[u8],
    asked: &[u8],
    key1: &[u8],
    value1: &[u8],
    key2: &[u8],
    value2: &[u8],
    room: &mut [u8],
    length: &mut [u8; 4],
) -> u32
    ensures { WritesMessage proof.now asked.now (key1.now ∷ value1.now ∷ key2.now ∷ value2.now ∷ []) room.old length.old result room.new length.new }
{
    grants_ics23_write(proof, asked, key1, value1, key2, value2, room, length)
}

// The same of reading.
pub fn read_out(message: &[u8], room: &mut [u8], answer: &mut [u8; 44]) -> u32
    ensures { ReadsMessage message.now room.old answer.old result room.new answer.new }
{
    grants_ics23_read(message, room, answer)
}
