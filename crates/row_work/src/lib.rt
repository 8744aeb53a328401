// Document 02, M-101: the work that a row's turns go over, by its pending records.
// No code: `specs/` has what holds of it, `proofs/` what an opening, a next base, an ingest and a digest make of it, by the claim's laws.
#![tactic(auto)]
