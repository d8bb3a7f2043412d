// The proof check and that of the pocket profile, without code: specs/ says what each answers to any bytes, proofs/ that it is one answer alone, and the one that reading them gives.
#![tactic(auto)]
