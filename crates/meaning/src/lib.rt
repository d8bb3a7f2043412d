// Document 01 as mathematics, without code: specs/ has the definitions, proofs/ the theorems that need no bytes.
#![tactic(auto)]
