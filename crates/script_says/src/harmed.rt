// The store harmed as a disk would harm it, for document 02, request 2026-07: a byte of a slot changed, or a slot emptied.
ghost use Rattle.std.specs.Prelude.{◌<◌, IfSome};

use script::say;
use script::words::{part, size};

pub fn put_byte(store: &mut [u8], at: usize, byte: u8) {
    if at < store.len() {
        store[at] = byte;
    }
}

// A word's number, where it is below a limit.
pub fn below(w: &[u8], limit: usize) -> Option<usize>
    ensures { IfSome result (λ n. n < limit) }
{
    size(w).filter(|n| *n < limit)
}

// byte SLOT AT BYTE
pub fn byte(l: &[u8], store: &mut [u8]) -> Option<()> {
    let i = below(part(l, 1, b' '), 16384)?;
    let at = below(part(l, 2, b' '), 128)?;
    let byte = below(part(l, 3, b' '), 256)?;
    say::line(b"  harm  slot ", part(l, 1, b' '), b", byte ");
    say::line(part(l, 2, b' '), b" made ", part(l, 3, b' '));
    say::text(b"\n");
    put_byte(store, 24 + 128 * i + at, byte as u8);
    Some(())
}

// lose SLOT
pub fn lose(l: &[u8], store: &mut [u8]) -> Option<()> {
    let i = below(part(l, 1, b' '), 16384)?;
    say::line(b"  harm  slot ", part(l, 1, b' '), b" emptied\n");
    let from = 24 + 128 * i;
    if let Some(slot) = store.get_mut(from..from + 128) {
        slot.fill(0);
    }
    Some(())
}
