// The figures of a range of versions, document 02, request 2026-14, without code: specs/ says them over the trees, proofs/ that they are counts over the slots.
#![tactic(auto)]
