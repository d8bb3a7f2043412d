// The demands over the public calls, without code: specs/ says what is promised of them, by way of their contracts, and proofs/ that it holds.
#![tactic(auto)]
