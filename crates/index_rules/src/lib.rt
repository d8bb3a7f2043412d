// The calls that keep a table of slot numbers beside a store, document 02, request 2026-05, without code: what each answers for any bytes and any table, and
// what it leaves of both.
#![tactic(auto)]
