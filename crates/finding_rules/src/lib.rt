// Document 02, request 2026-12: what the call answers of a proof, for any hash, and what that means; no code. specs/ says the one, proofs/ the other.
#![tactic(auto)]
