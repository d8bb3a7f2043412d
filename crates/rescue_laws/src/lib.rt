// The laws of a rescue, without code: versions compared two by two decide runs, the rescued store is sound, what a loop may enter as it goes, and what is sound comes back.
#![tactic(auto)]
