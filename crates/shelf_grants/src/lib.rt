// Shelves: what a shelf holds, by the grants of its parts, and what its list then holds; definitions and laws alone.
#![tactic(auto)]
