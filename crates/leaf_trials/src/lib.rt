// Document 01's trials by computation. No code: `specs/` says what the definitions of the calls answer, `proofs/` computes it.
#![tactic(auto)]
