// Several proofs at the boundary: the call answers 0 where it is accepted, else the number of refusal, and then it writes nothing. `grants` exports it.
#![tactic(auto)]

ghost use Rattle.std.proofs.Math.Option.{some};
ghost use Rattle.palette_c.specs.Export.{PaletteTold};
ghost use Rattle.contracts.specs.Palettes.{Palettes, PalettesBy};
ghost use Rattle.palette_c.specs.Within.{paletted_by};

use key_list::whole_keys;
use palette::palette;
use prove_told::told;
use read_open::as_many;
use refusal_numbers::Refusal;

// The proofs for a list of keys in a version, by a table of any length, fill the front of the room; the length of all together goes out in four bytes.
fn palette_by(
    store: &[u8],
    index: &[u32],
    version: u32,
    keys: &[u8],
    room: &mut [u8],
    length: &mut [u8; 4],
) -> u64
    ensures { PaletteTold (paletted_by store.now index.now version keys.now room.old) room.old length.old result room.new length.new }
{
    let proved = palette(store, index, version, keys, room);
    told(proved, length)
}

// The proofs for a list of keys in a version, by scans.
pub fn grants_palette(
    store: &[u8],
    version: u32,
    keys: &[u8],
    room: &mut [u8],
    length: &mut [u8; 4],
) -> u64
    ensures { Palettes store.now version keys.now room.old length.old result room.new length.new }
{
    palette_by(store, &[], version, keys, room, length)
}

// The proofs for a list of keys in a version, by a table lent with the store (2026-05). It goes like `prove_c::prove_indexed`, and is no plainer as one with
// it: the test of the list and the call would be closures, whose clauses say again what this contract says.
pub fn palette_indexed(
    store: &[u8],
    index: &[u32],
    version: u32,
    keys: &[u8],
    room: &mut [u8],
    length: &mut [u8; 4],
) -> u64
    ensures { PalettesBy store.now (some index.now) version keys.now room.old length.old result room.new length.new }
{
    if !whole_keys(keys) {
        return u64::from(Refusal::Not32Bytes.number());
    }
    if !as_many(store, index) {
        return u64::from(Refusal::WrongSize.number());
    }
    palette_by(store, index, version, keys, room, length)
}

// What `grants` exports. No proof file stands behind it, so that an idle one is refused by its contract alone.
pub fn palette_out(
    store: &[u8],
    version: u32,
    keys: &[u8],
    room: &mut [u8],
    length: &mut [u8; 4],
) -> u64
    ensures { Palettes store.now version keys.now room.old length.old result room.new length.new }
{
    grants_palette(store, version, keys, room, length)
}
