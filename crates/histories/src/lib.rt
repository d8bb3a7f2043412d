// Theorems on what a store holds after calls, without code: that soundness is kept, and histories.
#![tactic(auto)]
