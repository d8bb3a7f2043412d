// Moving stores over and back (2026-10) over bytes, without code: what the two calls answer for any source and target, and what that is worth.
#![tactic(auto)]
