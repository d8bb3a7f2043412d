// What follows of the contracts of writing and reading a message, document 02, request 2026-02, without code.
#![tactic(auto)]
