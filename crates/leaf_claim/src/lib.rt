// Demand 3: one claim about every sequence of calls, over the bytes that the calls are lent and leave. No code: `specs/` has what is claimed,
// `proofs/` shows it of the definitions of leaf_work.
#![tactic(auto)]
