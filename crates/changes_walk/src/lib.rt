// Two trees of a store walked together from a place on, document 02, request 2026-01.
#![tactic(auto)]

ghost use Rattle.changes_walk.specs.Walk.{Goes, WalkSays};

use changes_put::put_ends;
use changes_top::{Top, below, no_deeper};
use place::Place;

// How a walk ended. An Option of both numbers is 8 bytes longer, and each frame of the recursion would grow by 16.
#[derive(Clone, Copy)]
pub enum Walked {
    // There were more visits than the budget.
    Passed,
    // What is left of the budget, and the number of the next record.
    Done { budget: u32, next: usize },
}

// Walks two trees from a place on, by check's guesses of the children's slots. A visit takes one from the budget, and with no budget left the walk stops;
// so the visits counted bound the work. Records of the list are put from number `at` on if it writes, else only counted.
pub fn walk(
    store: &[u8],
    guess: &[u16; 32768],
    place: Place,
    first: Top,
    second: Top,
    budget: u32,
    writes: bool,
    room: &mut [u8],
    at: usize,
) -> Walked
    requires { Goes store.now place first second budget writes room.old at }
    ensures { WalkSays store.now place first second budget writes room.old at result room.new }
{
    if budget == 0 {
        return Walked::Passed;
    }
    let rest = budget - 1;
    if no_deeper(first, second) {
        let next = put_ends(store, first, second, writes, room, at);
        return Walked::Done { budget: rest, next };
    }
    let left = place.left();
    let first_left = below(store, guess, place, first, false, left);
    let second_left = below(store, guess, place, second, false, left);
    let done = walk(
        store,
        guess,
        left,
        first_left,
        second_left,
        rest,
        writes,
        room,
        at,
    );
    let Walked::Done { budget: b, next: n } = done else {
        return Walked::Passed;
    };
    let right = place.right();
    let first_right = below(store, guess, place, first, true, right);
    let second_right = below(store, guess, place, second, true, right);
    walk(
        store,
        guess,
        right,
        first_right,
        second_right,
        b,
        writes,
        room,
        n,
    )
}
