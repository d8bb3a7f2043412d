// The bytes of presence and absence proofs: specs/ says how a proof is encoded and decoded, proofs/ that each undoes the other. Here are their
// kinds and sizes, and where their fields stand; each begins with its length.
#![tactic(auto)]

// The kind of a presence proof.
pub const PRESENCE_KIND: u16 = 16;
// The kind of an absence proof.
pub const ABSENCE_KIND: u16 = 17;
// A step: its side and the sibling's hash.
pub const STEP_SIZE: usize = 33;
// The bytes of a presence proof before its steps: length, kind, step count, key, value.
pub const PRESENCE_HEAD: usize = 72;
// The bytes of an absence proof before its neighbours: length, kind, flags, key.
pub const ABSENCE_HEAD: usize = 40;
// No path is longer.
pub const MOST_STEPS: usize = 256;
// The kind, in both.
pub const KIND_AT: usize = 4;
// The step count of a presence proof.
pub const STEPS_AT: usize = 6;
// The flags of an absence proof: 1 left neighbour, 2 right, 3 both, 0 neither.
pub const FLAGS_AT: usize = 6;
// The key, in both.
pub const KEY_AT: usize = 8;
// The value of a presence proof, after its key.
pub const VALUE_AT: usize = 40;
