// The proof check at the boundary, as `grants` exports it. No proof file stands behind it, so that an idle one is refused by its contract alone.
#![tactic(auto)]

ghost use Rattle.verify_rules.specs.Verify.{Verifies};

// What a proof shows of a key against a root: 1 and the value, or 0 and 32 zero bytes for 'absent'.
pub fn verified_out(root: &[u8], key: &[u8], proof: &[u8], found: &mut [u8; 33]) -> u32
    ensures { Verifies root.now key.now proof.now found.old result found.new }
{
    verify_call::grants_verify(root, key, proof, found)
}
