// Two buffers compared slot by slot, document 02, request 2026-08: records kept as they were, kept with another retired-since, used slots left
// out.
#![tactic(auto)]

ghost use Rattle.std.specs.Prelude.{◌≡◌};
ghost use Rattle.layout.specs.Stores.{store_of, slot_no};
ghost use Rattle.rescue_rules.specs.Rescue.{compared, counts};
ghost use Rattle.rescue_count.specs.Count.{counts_say, Countable, Pair};

use fields::all_zero;
use lookup::holds_record;
use store::{retired_at, slot_count, slot_of};
use terms::Form;

#[derive(Clone, Copy)]
pub struct Counts {
    pub same: u32,
    pub other: u32,
    pub out: u32,
}

// Counts slot i.
fn count_slot(source: &[u8], target: &[u8], i: usize, c: Counts) -> Counts
    requires { Countable source.now target.now i c }
    ensures { counts_say result ≡ compared (slot_no Form.Counted i source.now) (slot_no Form.Counted i target.now) (counts_say c) }
{
    let before = slot_of(Form::Counted, source, i);
    let after = slot_of(Form::Counted, target, i);
    let mut now = c;
    if all_zero(before) {
        return now;
    }
    if !holds_record(before) {
        now.out = now.out + 1;
        return now;
    }
    if !holds_record(after) {
        now.out = now.out + 1;
        return now;
    }
    if retired_at(Form::Counted, source, i) == retired_at(Form::Counted, target, i) {
        now.same = now.same + 1;
        return now;
    }
    now.other = now.other + 1;
    now
}

// Counts all slots.
pub fn count(source: &[u8], target: &[u8]) -> Counts
    requires { Pair source.now target.now }
    ensures { counts_say result ≡ counts (store_of source.now).slots (store_of target.now).slots }
{
    let mut c = Counts {
        same: 0,
        other: 0,
        out: 0,
    };
    for i in (0..slot_count(Form::Counted, source)).rev() {
        c = count_slot(source, target, i, c);
    }
    c
}
