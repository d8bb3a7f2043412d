// A row of pieces, cut by their own lengths, and what the check of many proofs answers to it: definitions and laws alone.
#![tactic(auto)]
