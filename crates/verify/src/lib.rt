// The check of presence and absence proofs over hostile bytes, document 01, 'Checking'.
#![tactic(auto)]

ghost use Rattle.std.specs.Prelude.{◌≡◌, cond};
ghost use Rattle.meaning.specs.Calls.{refused};
ghost use Rattle.verify_rules.specs.Reading.{verified};
ghost use Rattle.verify.specs.Says.{says};

use hash::{Hash, hash_at};
use proofrecords::VALUE_AT;
use refusal_numbers::Refusal;
use verify_form::{is_absence, is_presence};
use verify_holds::{absence_holds, presence_holds, walk_absence, walk_presence};

// The answer of a proof in form that holds, else 11.
pub fn held(holds: bool, answer: Result<Option<Hash>, Refusal>) -> Result<Option<Hash>, Refusal>
    ensures { says result ≡ cond holds (says answer) (refused 11) }
{
    if holds {
        return answer;
    }
    Err(Refusal::NotHolding)
}

// What a proof says of a key under a root: any bytes may be handed in.
pub fn verify(root: &[u8], key: &[u8], proof: &[u8]) -> Result<Option<Hash>, Refusal>
    ensures { says result ≡ verified root.now key.now proof.now }
{
    if root.len() != 32 {
        return Err(Refusal::Not32Bytes);
    }
    if key.len() != 32 {
        return Err(Refusal::Not32Bytes);
    }
    let top = hash_at(root, 0);
    if is_presence(proof) {
        let value = hash_at(proof, VALUE_AT);
        let good = walk_presence(top, key, proof);
        let holds = presence_holds(top, good, key, proof);
        return held(holds, Ok(Some(value)));
    }
    if is_absence(proof) {
        let led = walk_absence(top, key, proof);
        let holds = absence_holds(top, led.first, led.second, key, proof);
        return held(holds, Ok(None));
    }
    Err(Refusal::NotInForm)
}
