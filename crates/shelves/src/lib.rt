// Shelves over the public calls: what an editor sees of a shelf, what a false proof costs, what publishing makes of it; no code.
#![tactic(auto)]
