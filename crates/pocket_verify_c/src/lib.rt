// The check of proofs of the pocket profile for C to link: that of `pocket_verify`, under its own name and the same contract.
#![tactic(auto)]

ghost use Rattle.verify_rules.specs.Pocket.{PocketVerifies};

// The pocket check for callers in other languages: as `grants_verify`, with 19 for a proof in form that is outside the profile.
#[unsafe(no_mangle)]
pub extern "C" fn grants_pocket_verify(
    root: &[u8],
    key: &[u8],
    proof: &[u8],
    found: &mut [u8; 33],
) -> u32
    ensures { PocketVerifies root.now key.now proof.now found.old result found.new }
{
    pocket_verify::grants_pocket_verify(root, key, proof, found)
}
