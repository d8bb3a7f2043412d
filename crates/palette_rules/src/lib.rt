// Several proofs in one call, document 02, request 2026-04, without code: specs/ says it, proofs/ that it is what single calls would give.
#![tactic(auto)]
