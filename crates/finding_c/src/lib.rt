// What a forged proof would cost, at the boundary: the call answers 0 where it is accepted, else the number of refusal, and then it writes nothing.
// `grants` exports it.
#![tactic(auto)]

ghost use Rattle.std.specs.Prelude.{◌≡◌, length};
ghost use Rattle.forged_nodes.specs.Nodes.{named_says};
ghost use Rattle.finding_rules.specs.Call.{finding_bytes};
ghost use Rattle.contracts.specs.Finds.{Finds};

use fields::clear;
use finding::finding;
use finding_put::{put_one, put_two};
use forged_nodes::Named;

// Writes what is found.
fn put_named(answer: &mut [u8], named: Named)
    requires { length answer.old ≡ 131 }
    ensures { answer.new ≡ finding_bytes (named_says named) }
{
    match named {
        Named::Nothing => clear(answer),
        Named::Two { node, checked } => put_two(answer, node, checked),
        Named::Zero(m) => put_one(answer, 2, m),
    }
}

// What is found of a proof for a key in a version, in 131 bytes: 0 where it tells the truth, 1 and two messages of equal hash, 2 and one of hash zero.
pub fn grants_finding(
    store: &[u8],
    version: u32,
    key: &[u8],
    proof: &[u8],
    answer: &mut [u8; 131],
) -> u32
    ensures { Finds store.now version key.now proof.now answer.old result answer.new }
{
    let found = finding(store, version, key, proof);
    match found {
        Err(refusal) => refusal.number(),
        Ok(named) => {
            put_named(answer, named);
            0
        }
    }
}
