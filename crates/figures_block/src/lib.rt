// The figures of the versions of a block, document 02, request 2026-14: one scan counts what lives at each of them and lists what lives at some, so that a version adds
// the listed slots alone.
#![tactic(auto)]

ghost use Rattle.std.specs.Prelude.{◌≡◌, ◌≤◌, length};
ghost use Rattle.figures_count.specs.Count.{Whole};
ghost use Rattle.figures_block.specs.Block.{Right, None, Counts};

use figures_count::{Figures, add_slot, lives};
use store::slot_count;
use terms::Form;

// How many versions a block has at most, less one.
const MORE_VERSIONS: u32 = 31;

// A block of versions: the numbers of what lives at each of them, and how many slots are listed for what lives at some.
#[derive(Clone, Copy)]
pub struct Block {
    pub first: u32,
    pub last: u32,
    pub all: Figures,
    pub listed: usize,
}

// A block without a version.
pub fn no_block() -> Block
    ensures { None result }
{
    let all = Figures {
        leaves: 0,
        inners: 0,
        longest: 0,
        sum: 0,
    };
    Block {
        first: 1,
        last: 0,
        all,
        listed: 0,
    }
}

// The block from first to last: the slots one by one from the last, each counted at once, listed or passed over.
fn split(store: &[u8], list: &mut [u16; 16384], first: u32, last: u32) -> Block
    requires { Whole store.now × (length list.old ≡ 16384) }
    ensures { Right store.now list.new result × (result.first ≡ first) × (result.last ≡ last) × (length list.new ≡ 16384) }
{
    let n = slot_count(Form::Counted, store);
    let mut all = Figures {
        leaves: 0,
        inners: 0,
        longest: 0,
        sum: 0,
    };
    let mut listed = 0;
    for i in (0..n).rev() {
        if lives(store, i, last, first) {
            all = add_slot(store, i, first, all);
        } else if lives(store, i, first, last) {
            list[listed] = i as u16;
            listed += 1;
        }
    }
    Block {
        first,
        last,
        all,
        listed,
    }
}

// The last version of the block that begins at a version of a range that ends at last.
fn block_end(version: u32, last: u32) -> u32
    requires { version ≤ last }
    ensures { version ≤ result }
{
    let more = last - version;
    if more < MORE_VERSIONS {
        return last;
    }
    version + MORE_VERSIONS
}

// A block with the version: the one that is there if it has it, else the one that begins at it.
pub fn block_with(
    store: &[u8],
    list: &mut [u16; 16384],
    block: Block,
    version: u32,
    last: u32,
) -> Block
    requires { Whole store.now × (length list.old ≡ 16384) × Right store.now list.old block × (version ≤ last) }
    ensures { Right store.now list.new result × (result.first ≤ version) × (version ≤ result.last) × (length list.new ≡ 16384) }
{
    if block.first <= version {
        if version <= block.last {
            return block;
        }
    }
    split(store, list, version, block_end(version, last))
}

// The four numbers of a version of a block: what lives at each, and the listed slots.
pub fn figures_in(store: &[u8], list: &[u16; 16384], block: Block, version: u32) -> Figures
    requires { Whole store.now × Right store.now list.now block × (block.first ≤ version) × (version ≤ block.last) }
    ensures { Counts store.now version result }
{
    let mut f = block.all;
    for j in 0..block.listed {
        let i = list[j] as usize;
        f = add_slot(store, i, version, f);
    }
    f
}
