// The words of document 01 as types and tests, without code: specs/ has the definitions, proofs/ their laws. The form of a store is a type of
// the code too, so that contracts name it as it is.
#![tactic(auto)]

// The plain form of document 01, whose records hold no counts, or the counted one of 2026-09.
#[derive(Clone, Copy)]
pub enum Form {
    Plain,
    Counted,
}
