// What a forged proof would cost (2026-12), without code: specs/ says which messages are hashed and what a finding is, proofs/ that one is there wherever an accepted proof says something false.
#![tactic(auto)]
