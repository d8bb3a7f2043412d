// The contracts of the public calls, by name, without code: `grants` ensures them, and the demands' theorems cite them without standing on its code.
#![tactic(auto)]
