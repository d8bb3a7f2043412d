// The proof check in words, without code: specs/ says when a proof holds, and proofs/ that the checker's answer says exactly that.
#![tactic(auto)]
