// A table of slot numbers in the order of their nodes, and what a search in it finds: definitions and laws, no code.
#![tactic(auto)]
