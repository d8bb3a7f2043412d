// The pocket profile, document 02, request 2026-14: specs/ says which proofs are inside it, and what its checker and its prover answer; proofs/ that inside
// it they agree with the full ones.
#![tactic(auto)]

// A leaf is shown with at most 32 steps.
pub const POCKET_STEPS: usize = 32;
