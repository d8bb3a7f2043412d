// An index beside the records, document 02, request 2026-05, without code: which table is right, how a search goes through a table, that reads by any table differ from the
// scan's only where two slots match, and that a right table leads to every record.
#![tactic(auto)]
