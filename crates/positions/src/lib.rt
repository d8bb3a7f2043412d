// The two reads of 2026-09, without code: in a sound store of the counted form the number read is the number of a version's grants, and the
// grant read at a position is the one that stands there among them, in the order of their keys.
#![tactic(auto)]
