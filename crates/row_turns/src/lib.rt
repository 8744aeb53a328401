// Document 02, M-101: a row of leaves under rising changes, by records, leaf by leaf, and lookup in a row.
// No code: `specs/` has the definitions, `proofs/` what holds of the new row.
#![tactic(auto)]
