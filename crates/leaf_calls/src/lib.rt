// Demand 3 about the exported calls: a corollary of the claim. There is no code here.
#![tactic(auto)]
