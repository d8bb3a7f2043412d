// Check, and calls on a sound store, without code: specs/ says what each answers for any bytes and what it leaves, proofs/ that this is one
// outcome.
#![tactic(auto)]
