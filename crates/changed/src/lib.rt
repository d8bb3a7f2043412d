// What changed between two kept versions, document 02, request 2026-01, without code: specs/ says it, proofs/ that it is what reviewers ask for.
#![tactic(auto)]
