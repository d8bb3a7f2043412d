// A varint where it stands in the bytes of a message, document 02, request 2026-02. Any bytes may be handed in.
#![tactic(auto)]

ghost use Rattle.std.specs.Prelude.{◌≤◌, length};
ghost use Rattle.message_varint.specs.Numbers.{Reads};

// A varint that was read: its number, and where the bytes after it begin.
#[derive(Clone, Copy)]
pub struct Number {
    pub value: usize,
    pub next: usize,
}

// A varint of at most that many bytes more than one: seven bits a byte, the lowest first.
// A last byte that follows another isn't 0.
fn read(m: &[u8], at: usize, more: usize) -> Option<Number>
    requires { (at ≤ length m.now) × (more ≤ 2) }
    ensures { Reads more m.now at result }
{
    if m.len() <= at {
        return None;
    }
    let b = usize::from(m[at]);
    if b < 128 {
        return Some(Number {
            value: b,
            next: at + 1,
        });
    }
    if more == 0 {
        return None;
    }
    let rest = read(m, at + 1, more - 1)?;
    if rest.value == 0 {
        return None;
    }
    Some(Number {
        value: b - 128 + 128 * rest.value,
        next: rest.next,
    })
}

// A varint of at most three bytes: no length in a message takes more.
pub fn varint(m: &[u8], at: usize) -> Option<Number>
    requires { at ≤ length m.now }
    ensures { Reads 2 m.now at result }
{
    read(m, at, 2)
}
