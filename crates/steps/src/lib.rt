// The step of a batch on trees, without code: specs/ has the algorithm, proofs/ that it gives what document 01 defines.
#![tactic(auto)]
