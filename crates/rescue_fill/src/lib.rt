// The target filled, document 02, request 2026-08: from latest, whose tree has passed, back by root records; each tree is compared with the next
// one alone, and what it alone has is entered once it has passed.
#![tactic(auto)]

ghost use Rattle.std.specs.Prelude.{◌≡◌, length};
ghost use Rattle.layout.specs.Stores.{store_of};
ghost use Rattle.ordered.specs.Ordered.{Guide};
ghost use Rattle.rescue_fill.specs.Fill.{bounded, Shaped, Fillable, Filled};

use check_kin::later;
use format::format;
use header::put_header;
use place::Place;
use rescue_enter::enter;
use rescue_step::step;
use store::slot_count;
use terms::Form;

// Writes the bounds of the run; answers its first version.
fn finish(target: &mut [u8], first: u32, latest: u32) -> u32
    requires { Shaped target.old }
    ensures answer { result ≡ first }
    ensures bytes { target.new ≡ bounded first latest target.old }
{
    let n = slot_count(Form::Counted, target) as u32;
    put_header(Form::Counted, target, n, first, latest);
    first
}

// Fills the target with the longest run; answers its first version.
pub fn fill(
    source: &[u8],
    order: &[u16],
    oldest: u32,
    latest: u32,
    root: u32,
    floor: u32,
    target: &mut [u8],
) -> u32
    requires { Fillable source.now oldest latest root floor target.old × Guide (store_of source.now).slots order.now (length order.now) }
    ensures { Filled source.now oldest latest result target.new }
{
    let top = Place::top();
    // The target has the size of a store, so this refuses nothing.
    let _ = format(target);
    enter(source, order, target, 0, top, root, 0);
    let mut b = root;
    let mut low = floor;
    // From root to older root, which is no count.
    loop {
        let first = later(later(oldest, low), b);
        if first <= oldest {
            return finish(target, first, latest);
        }
        if b < first {
            return finish(target, first, latest);
        }
        let stepped = step(source, order, first - 1, first, b, low);
        let Some(earlier) = stepped else {
            return finish(target, first, latest);
        };
        enter(source, order, target, first, top, earlier.root, b);
        b = earlier.root;
        low = earlier.floor;
    }
}
