// Document 02, request 2026-02, over bytes, without code: what writing and reading a message answer to any bytes.
#![tactic(auto)]
