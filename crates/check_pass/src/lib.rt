// Laws alone: a pass over the slots of a store, and what it leaves.
#![tactic(auto)]
