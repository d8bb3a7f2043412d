// The check of presence and absence proofs whose paths are walked already, document 01, 'Checking': it is told whether each leads to the root, and
// hashes nothing. The root is handed on for the contracts alone.
#![tactic(auto)]

ghost use Rattle.std.specs.Prelude.{◌≡◌};
ghost use Rattle.hash.specs.Hash.{hash_bytes};
ghost use Rattle.proofrecords.specs.ProofBytes.{proof_in};
ghost use Rattle.verify_rules.specs.Reading.{judged};
ghost use Rattle.verify.specs.Says.{says};
ghost use Rattle.verify_given.specs.Given.{Leading};

use hash::{Hash, hash_at};
use proofrecords::VALUE_AT;
use refusal_numbers::Refusal;
use verify::held;
use verify_form::{is_absence, is_presence};
use verify_holds::{absence_holds, presence_holds};

// What a proof says of a key under a root, where it is known of its paths whether they lead there.
pub fn verify_given(
    root: Hash,
    g: bool,
    h: bool,
    key: &[u8],
    proof: &[u8],
) -> Result<Option<Hash>, Refusal>
    requires { Leading (hash_bytes root) proof.now g h }
    ensures { says result ≡ judged (hash_bytes root) key.now (proof_in proof.now) }
{
    if is_presence(proof) {
        let value = hash_at(proof, VALUE_AT);
        let holds = presence_holds(root, g, key, proof);
        return held(holds, Ok(Some(value)));
    }
    if is_absence(proof) {
        let holds = absence_holds(root, g, h, key, proof);
        return held(holds, Ok(None));
    }
    Err(Refusal::NotInForm)
}
