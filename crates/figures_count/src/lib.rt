// Slots of a sound store counted by the lifetimes of their records, document 02, request 2026-14: what a slot adds to the figures of a version, and the records of a range.
#![tactic(auto)]

ghost use Rattle.std.specs.Prelude.{max, ◌≡◌};
ghost use Rattle.layout.specs.Stores.{store_of, slot_no};
ghost use Rattle.quarter.specs.Living.{slot_lives, slot_adds, living_records, with_leaf, with_inner};
ghost use Rattle.figures_count.specs.Count.{figures_say, Plain, Countable, Few, Whole};

use layout::sizes::LEAF_KIND;
use store::{count_at, kind_at, retired_at, slot_count, version_at};
use terms::Form;

// The four numbers of a version.
#[derive(Clone, Copy)]
pub struct Figures {
    pub leaves: u32,
    pub inners: u32,
    pub longest: u32,
    pub sum: u32,
}

// Whether slot i holds a record that lives at some version from first to last.
pub fn lives(store: &[u8], i: usize, first: u32, last: u32) -> bool
    requires { Plain store.now i }
    ensures { result ≡ slot_lives first last (slot_no Form.Counted i store.now) }
{
    let version = version_at(Form::Counted, store, i);
    if version == 0 {
        return false;
    }
    if last < version {
        return false;
    }
    let since = retired_at(Form::Counted, store, i);
    if since == 0 {
        return true;
    }
    first < since
}

fn longer(a: u32, b: u32) -> u32
    ensures { result ≡ max a b }
{
    if a < b {
        return b;
    }
    a
}

// The numbers with a leaf more, and with an inner node more.
fn with_leaf(f: Figures, steps: u32) -> Figures
    requires { Few f steps }
    ensures { figures_say result ≡ with_leaf steps (figures_say f) }
{
    Figures {
        leaves: f.leaves + 1,
        inners: f.inners,
        longest: longer(steps, f.longest),
        sum: f.sum + steps,
    }
}

fn with_inner(f: Figures) -> Figures
    requires { Few f 0 }
    ensures { figures_say result ≡ with_inner (figures_say f) }
{
    Figures {
        leaves: f.leaves,
        inners: f.inners + 1,
        longest: f.longest,
        sum: f.sum,
    }
}

// The numbers of a version with slot i.
pub fn add_slot(store: &[u8], i: usize, version: u32, f: Figures) -> Figures
    requires { Countable store.now i f }
    ensures { figures_say result ≡ slot_adds version (slot_no Form.Counted i store.now) (figures_say f) }
{
    if !lives(store, i, version, version) {
        return f;
    }
    if kind_at(Form::Counted, store, i) == LEAF_KIND {
        let steps = count_at(Form::Counted, store, i) as u32;
        return with_leaf(f, steps);
    }
    with_inner(f)
}

// How many records live at some version from first to last.
pub fn records_in(store: &[u8], first: u32, last: u32) -> u32
    requires { Whole store.now }
    ensures { result ≡ living_records first last (store_of store.now).slots }
{
    let n = slot_count(Form::Counted, store);
    let mut records = 0;
    for i in (0..n).rev() {
        if lives(store, i, first, last) {
            records += 1;
        }
    }
    records
}
