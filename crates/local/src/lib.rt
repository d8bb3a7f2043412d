// Soundness by single records, without code: specs/ has the test that a check of a store runs, proofs/ that it decides soundness.
#![tactic(auto)]
