// The numbers of refusal, without code: specs/ has 01's rows as propositions, the table of each public call in its order of checks, and what
// it is to answer exactly by a table; proofs/ has the laws by which a call is shown to.
#![tactic(auto)]
