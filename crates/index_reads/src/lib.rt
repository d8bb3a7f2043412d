// Document 02, request 2026-05: where no two slots match, a read by any table is the read by scans. No code.
#![tactic(auto)]
