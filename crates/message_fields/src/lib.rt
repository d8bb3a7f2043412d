// A field and an inner op where they stand in the bytes of a message, document 02, request 2026-02. Any bytes may be handed in.
#![tactic(auto)]

ghost use Rattle.std.specs.Prelude.{◌≡◌, ◌≤◌, length};
ghost use Rattle.messages.specs.Reading.{step_in};
ghost use Rattle.message_fields.specs.Standing.{Stands, step_by};

use message_varint::varint;
use place::same;

// A field of bytes or of a message: where its bytes begin and end.
#[derive(Clone, Copy)]
pub struct Part {
    pub from: usize,
    pub to: usize,
}

// Field n of bytes or of a message, which begins there.
pub fn field(m: &[u8], at: usize, n: u8) -> Option<Part>
    requires { (at ≤ length m.now) × (n ≤ 15) }
    ensures { Stands n m.now at result }
{
    if m.len() <= at {
        return None;
    }
    if m[at] != 8 * n + 2 {
        return None;
    }
    let size = varint(m, at + 1)?;
    if m.len() - size.next < size.value {
        return None;
    }
    Some(Part {
        from: size.next,
        to: size.next + size.value,
    })
}

// Whether an inner op puts its node on the right, by its head and its length: 32 bytes follow the head.
// Nothing where it is no inner op of ours.
pub fn inner_op(x: &[u8]) -> Option<bool>
    ensures { step_in x.now ≡ step_by x.now result }
{
    if x.len() == 39 {
        let left: [u8; 7] = [8, 1, 18, 1, 0, 26, 32];
        if same(&x[0..7], &left) {
            return Some(false);
        }
        return None;
    }
    if x.len() == 37 {
        let right: [u8; 5] = [8, 1, 18, 33, 0];
        if same(&x[0..5], &right) {
            return Some(true);
        }
    }
    None
}
