// The proof check for C to link: that of `verify_call`, under its own name and the same contract.
#![tactic(auto)]

ghost use Rattle.verify_rules.specs.Verify.{Verifies};

// The check for callers in other languages: 0 where a proof is accepted, with 1 and the value or 0 and zero bytes in `found`; else the
// number of refusal, with `found` as it was.
#[unsafe(no_mangle)]
pub extern "C" fn grants_verify(root: &[u8], key: &[u8], proof: &[u8], found: &mut [u8; 33]) -> u32
    ensures { Verifies root.now key.now proof.now found.old result found.new }
{
    verify_call::grants_verify(root, key, proof, found)
}
