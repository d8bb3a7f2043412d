// The check of many proofs for C to link: that of `verify_many`, under its own name and the same contract.
#![tactic(auto)]

ghost use Rattle.verify_rows.specs.Rows.{VerifiesMany};

// The check of many proofs for callers in other languages: 0 where it is accepted, with 34 bytes for each key at the front of `answers`; else
// the number of refusal, with `answers` as it was.
#[unsafe(no_mangle)]
pub extern "C" fn grants_verify_many(
    root: &[u8],
    keys: &[u8],
    proofs: &[u8],
    answers: &mut [u8],
) -> u32
    ensures { VerifiesMany root.now keys.now proofs.now answers.old result answers.new }
{
    verify_many::grants_verify_many(root, keys, proofs, answers)
}
