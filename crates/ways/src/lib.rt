// The ways of reads in words, without code: specs/ says where a walk and a descent go over the records of a store and when they give 3,
// and proofs/ that the answers of get and prove say exactly that.
#![tactic(auto)]
