// Reading, proving and checking, without code: what a sound store shows of a key is what its grants say, and the checker agrees.
#![tactic(auto)]
