// The leaf updater over records alone: cutting, the work and its turns, the tally, and the claim about every sequence of calls.
// No bytes and no pages, so no code: `specs/` has the definitions, `proofs/` the laws that the crates above cite.
#![tactic(auto)]
