// The check of a shelf's proofs for C to link: that of `shelf_verify`, under its own name and the same contract.
#![tactic(auto)]

ghost use Rattle.shelf_rules.specs.Shelf.{ShelfVerifies};

// The check for callers in other languages: 0 where a proof is accepted, with 1 and the value or 0 and zero bytes in `found`; else the
// number of refusal, with `found` as it was.
#[unsafe(no_mangle)]
pub extern "C" fn grants_shelf_verify(
    root: &[u8],
    bits: u32,
    key: &[u8],
    proof: &[u8],
    found: &mut [u8; 33],
) -> u32
    ensures { ShelfVerifies root.now bits key.now proof.now found.old result found.new }
{
    shelf_verify::grants_shelf_verify(root, bits, key, proof, found)
}
