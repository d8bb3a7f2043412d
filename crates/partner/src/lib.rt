// A partner's verifier, document 02, request 2026-02, without code: specs/ says ICS 23's check with a ProofSpec as its specification has it, proofs/ that with ours it accepts what our check accepts.
#![tactic(auto)]
