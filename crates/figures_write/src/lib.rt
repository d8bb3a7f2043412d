// Which ranges of versions have figures, and the numbers of each version of a range written one after the other, request 2026-14.
#![tactic(auto)]

ghost use Rattle.std.specs.Prelude.{◌≡◌, length};
ghost use Rattle.layout.specs.Stores.{store_of, HeaderWithin};
ghost use Rattle.quarter.specs.Figures.{range_right, figures_bytes};
ghost use Rattle.figures_count.specs.Count.{figures_say};
ghost use Rattle.figures_write.specs.Parts.{Range, Writes};

use fields::put_u32;
use figures_block::{block_with, figures_in, no_block};
use figures_count::Figures;
use prune_free::is_kept;

// Four numbers of 4 bytes for each version.
pub const FIGURES_SIZE: usize = 16;

// A range has at most 1,024 versions.
const MOST_VERSIONS: u32 = 1024;

// Whether the range has 1 to 1,024 versions, all of them kept.
pub fn range_right(store: &[u8], first: u32, last: u32) -> bool
    requires { HeaderWithin store.now }
    ensures { result ≡ range_right (store_of store.now) first last }
{
    if !is_kept(store, first) {
        return false;
    }
    if !is_kept(store, last) {
        return false;
    }
    if last < first {
        return false;
    }
    let more = last - first;
    more < MOST_VERSIONS
}

// Writes the four numbers of a version.
fn put_figures(part: &mut [u8], f: Figures)
    requires { length part.old ≡ 16 }
    ensures { part.new ≡ figures_bytes (figures_say f) }
{
    put_u32(part, 0, f.leaves);
    put_u32(part, 4, f.inners);
    put_u32(part, 8, f.longest);
    put_u32(part, 12, f.sum);
}

// Writes the numbers of each version of a range into a part that has room for just these, block by block; answers the sum of records.
pub fn write_each(
    part: &mut [u8],
    list: &mut [u16; 16384],
    store: &[u8],
    first: u32,
    last: u32,
) -> u32
    requires { Range first last store.now part.old × (length list.old ≡ 16384) }
    ensures { Writes first last store.now result part.new }
{
    let n = part.len() / FIGURES_SIZE;
    let mut block = no_block();
    let mut records = 0;
    for i in 0..n {
        let more = i as u32;
        let version = first + more;
        block = block_with(store, list, block, version, last);
        let f = figures_in(store, list, block, version);
        let at = FIGURES_SIZE * i;
        let end = at + FIGURES_SIZE;
        put_figures(&mut part[at..end], f);
        let nodes = f.leaves + f.inners;
        records += nodes;
    }
    records
}
