// Shelves: the key of a part in the list, and what the check of a shelf's proof answers to any bytes; definitions and laws alone.
#![tactic(auto)]
