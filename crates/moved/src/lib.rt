// Moving stores over and back (2026-10), without code: specs/ says what the target holds, and proofs/ that there and back is the same store, that
// soundness goes both ways, and that no tree, read or proof sees a count.
#![tactic(auto)]
