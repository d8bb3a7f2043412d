// The ICS 23 message of a proof, document 02, request 2026-02, without code: specs/ says the message and its reader, proofs/ that each undoes the other.
#![tactic(auto)]
