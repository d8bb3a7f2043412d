// The rescue's contract over bytes, document 02, request 2026-08, without code: specs/ says what the call answers and leaves, proofs/ what that is worth.
#![tactic(auto)]
