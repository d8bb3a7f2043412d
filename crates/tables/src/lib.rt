// The desk's history, its table by steps, and tables of random cases, computed from the definitions; the cases are compared with a second reading of document 01 (tests/tables).
#![tactic(auto)]
