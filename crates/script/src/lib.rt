// What the program of vectors needs besides the calls: the words of a line of its script, the batches and grants that they say, the root of a set of
// grants, what the slots of a store hold, and what is written to standard output.
#![tactic(auto)]

pub mod batches;
pub mod held;
pub mod say;
pub mod words;
