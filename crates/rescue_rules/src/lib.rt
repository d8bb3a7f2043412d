// The rescue of a damaged store, document 02, request 2026-08, without code: specs/ has the longest good run of versions, and runs tested by versions compared two by two; proofs/ the desk's store rescued.
#![tactic(auto)]
